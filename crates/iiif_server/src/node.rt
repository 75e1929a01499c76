//! A node: what it was told, its images, their tiles and sums, and its answers.

ghost use Rattle.std.specs.Prelude.{◌≡◌, ◌<◌, ◌≤◌, ◌*◌, false, true, IfOk, length};
ghost use Rattle.iiif_answers.specs.Outcomes.{IsReady};
ghost use Rattle.iiif_answers.specs.Responses.{is_loaded};
ghost use Rattle.iiif_answers.specs.declared.part.Part.TheVariants.{Body};
ghost use Rattle.iiif_delivery.specs.Delivery.{MaySend, Sends};
ghost use Rattle.iiif_io.specs.Devices.{writes};
ghost use Rattle.iiif_server.specs.Answering.{FramesCall, FramesPart, SendsForCall, SendsForTarget, SendsWhole};
ghost use Rattle.iiif_server.specs.Answering.{SparesForCall, SparesForTarget, SparesUnlessImage};
ghost use Rattle.iiif_server.specs.Asking.{IsFound, IsJobOn, PlansHead, PlansJob, SendsFor, WasAccepted, WasFound};
ghost use Rattle.iiif_server.specs.Code.{HasImages};
ghost use Rattle.iiif_server.specs.Nodes.{StandsFor};

use crate::asking::{Asked, Host, Planned};
use crate::group_config::GroupConfig;
use crate::links::Links;
use crate::peak::Peak;
use crate::room::Room;
use iiif_answers::accepted::Accepted;
use iiif_answers::calls::{is_answered, part_of};
use iiif_answers::images::{head_message, image_head, job_of, picture_is_shown};
use iiif_answers::laws::whole_over_honest_devices;
use iiif_answers::message::{message_of, refusal_message};
use iiif_answers::outcome::{Outcome, outcome_of};
use iiif_answers::sending::{send_fault, send_message};
use iiif_answers::{Cause, Config, Cut, Part, Sent};
use iiif_assemble::{Items, Job, RenderContext};
use iiif_delivery::{Admission, Delivered, Sending, Stopped, send_image};
use iiif_group_items::laws::groups_serve_jobs;
use iiif_group_items::{GroupItems, JobQueue};
use iiif_http_front::Call;
use iiif_io::Outlet;
use iiif_keys::{SumKey, SumVal, System, TileKey, TileVal};
use iiif_pixel::NoMemory;
use iiif_request::Refusal;
use iiif_source::Source;
use iiif_sum_group::{
    Gate, Groups, Handle, NoGate, NoLink, Note, Passes, Step, SumCalls, TileCalls, Tiles,
};
use iiif_tables::Class;
use iiif_tile_group::{Catalogue, ImageEntry, Images};
use std::alloc::{AllocError, Global};
use std::marker::Model;
use std::sync::Wait;
use std::sync::ledger::{Blank, Ledger};
use std::thread::Threads;
use std::time::Clock;

/// Returns how many light jobs of so many workers each make their blocks at a time: as many as each has workers, and four at most; four
/// where each has one.
fn light_jobs(workers: u32) -> u32
    ensures { (2 ≤ result) × (result ≤ 4) }
{
    if workers < 2 { 4 } else { workers.min(4) }
}

/// Returns how many heavy jobs of so many workers each make their blocks at a time: as many as take four threads, and two at least, so that
/// one that waits for its reads leaves the processors to another.
fn heavy_jobs(workers: u32) -> u32
    ensures two { 2 ≤ result }
    ensures threads { 2 < result → result * workers ≤ 4 }
{
    if workers < 2 { 4 } else { 2 }
}

/// Makes the queue that admits jobs to making blocks, among so many nodes. Of several nodes it admits all light jobs: there a job mostly
/// waits for replies, and one that waits for a slow node is not to hold the others.
fn job_queue(alloc: Global, workers: u32, nodes: usize) -> JobQueue {
    let light = if nodes > 1 {
        u32::MAX
    } else {
        light_jobs(workers)
    };
    JobQueue::new(alloc, light, heavy_jobs(workers))
}

/// Sends an image as `send_image` does, and tells the peak how much was kept beside it.
fn send_counted<
    A: Items<TileKey, TileVal, P, R> + Sync,
    B: Items<SumKey, SumVal, P, R> + Admission<R> + Sync,
    P: Send,
    R: Threads + Wait + Sync,
    W: Outlet,
>(
    peak: &Peak,
    context: &RenderContext<'_, A, B, R>,
    passes: &mut [P],
    sending: &Sending<'_>,
    out: &mut W,
) -> Result<Delivered, Stopped>
    requires some { 0 < length passes.old }
    requires sending { MaySend A.Items B.Items context.now sending.now }
    ensures { Sends A.Items B.Items context.now sending.now W.contents W.fails out.old out.new result }
{
    let result = send_image(context, passes, sending, out);
    if let Ok(delivered) = &result {
        peak.raise(context.rt, delivered.kept);
    }
    result
}

/// A server. Clauses see what it was told, and its images. J says what the names of the images stand for, and which ledgers count
/// the calls; N is the way to other nodes, and T what each load passes.
#[derive(Drop)]
pub struct Node<R, S: Source<R>, J: System, N = NoLink, T = NoGate>
where
    TileCalls<J>: Ledger,
    SumCalls<J>: Ledger,
{
    config: Config,
    groups: Groups<R, S, J, N, T>,
    /// Admits jobs to making blocks.
    queue: JobQueue,
    /// How much was kept beside one answer.
    kept: Peak,
}

impl<R, S: Source<R>, J: System, N, T> Model for Node<R, S, J, N, T>
where
    TileCalls<J>: Ledger,
    SumCalls<J>: Ledger,
{
    ghost use Rattle.iiif_sum_group.specs.Views.{items_served};
    ghost use Rattle.iiif_server.specs.Nodes.{Service, IsTied};

    ghost Value = { Service S };

    ghost view = { λ n. record { settings = n.config; items = items_served n.groups } };

    ghost invariant = { λ n. IsTied S.keeps J.stable J.edge n.config (items_served n.groups) };
}

impl<R, S: Source<R> + Drop, J: System, N, T> Node<R, S, J, N, T> {
    ghost use Rattle.iiif_server.specs.GroupConfigs.{IsGroupConfig};

    /// Makes a node of these images, where J says what their names stand for. The only error is lack of memory.
    pub fn new(
        alloc: Global,
        config: Config,
        catalogue: Catalogue<R, S>,
        tiles: GroupConfig<N, T>,
        sums: GroupConfig<N, T>,
    ) -> Result<Self, NoMemory>
    where
        N: Drop,
        T: Drop,
        requires names { StandsFor J.System S.Source config.edge catalogue }
        requires tiles { IsGroupConfig J.tiles_name J.tiles_parts tiles }
        requires sums { IsGroupConfig J.sums_name J.sums_parts sums }
        ensures settings { IfOk result (λ n. n.settings ≡ config) }
        ensures items { IfOk result (λ n. n.items ≡ catalogue) }
    {
        let edge = config.edge();
        let queue = job_queue(alloc, config.workers(), sums.links.len());
        let images = Images::new(catalogue, edge);
        let group = tiles.group(alloc)?;
        let tiles = Tiles::new(alloc, images, group);
        let group = sums.group(alloc)?;
        let groups = Groups::new(alloc, tiles, group);
        Ok(Node {
            config,
            groups,
            queue,
            kept: Peak::new(),
        })
    }

    /// Returns a handle to the groups of tiles and sums, by which nothing is loaded past them.
    pub fn groups(&self) -> Handle<'_, R, S, J, N, T> {
        Handle::new(&self.groups)
    }

    /// Returns its images.
    pub(crate) fn images(&self) -> &Catalogue<R, S>
        ensures { HasImages J.System S.Source self.now result.now }
    {
        self.groups.tiles().images().catalogue()
    }

    /// Plans the job of an accepted request of one of its images.
    fn job(
        &self,
        alloc: Global,
        entry: &ImageEntry<R, S>,
        accepted: &Accepted,
    ) -> Result<Job, NoMemory>
        requires ready { IsReady entry.now.layout accepted.now }
        requires found { IsFound self.now entry.now }
        ensures { IfOk result (IsJobOn J.System S.Source entry.now accepted.now) }
    {
        // Read, so that it is known what the names stand for.
        let _images = self.images();
        job_of(alloc, self.config.edge(), entry, accepted)
    }
}

impl<R, S: Source<R> + Drop, J: System> Node<R, S, J, NoLink, NoGate> {
    ghost use Rattle.iiif_server.specs.GroupConfigs.{IsBlankOf};

    /// Makes a node that asks no other, whose groups have this room each. The only error is lack of memory.
    pub fn alone(
        alloc: Global,
        config: Config,
        catalogue: Catalogue<R, S>,
        room: Room,
        tiles: Blank,
        sums: Blank,
    ) -> Result<Self, NoMemory>
        requires names { StandsFor J.System S.Source config.edge catalogue }
        requires tiles { IsBlankOf J.tiles_name J.tiles_parts tiles }
        requires sums { IsBlankOf J.sums_name J.sums_parts sums }
        ensures settings { IfOk result (λ n. n.settings ≡ config) }
        ensures items { IfOk result (λ n. n.items ≡ catalogue) }
    {
        Node::alone_by(
            alloc,
            config,
            catalogue,
            room,
            (tiles, sums),
            (NoGate, NoGate),
        )
    }
}

impl<R, S: Source<R> + Drop, J: System, T: Drop> Node<R, S, J, NoLink, T> {
    ghost use Rattle.iiif_server.specs.GroupConfigs.{IsBlankOf};

    /// Makes a node that asks no other, whose groups have this room each, and whose loads pass these gates. The blanks and the gates are
    /// those of tiles and of sums. The only error is lack of memory.
    pub fn alone_by(
        alloc: Global,
        config: Config,
        catalogue: Catalogue<R, S>,
        room: Room,
        blanks: (Blank, Blank),
        gates: (T, T),
    ) -> Result<Self, NoMemory>
        requires names { StandsFor J.System S.Source config.edge catalogue }
        requires tiles { IsBlankOf J.tiles_name J.tiles_parts blanks.0 }
        requires sums { IsBlankOf J.sums_name J.sums_parts blanks.1 }
        ensures settings { IfOk result (λ n. n.settings ≡ config) }
        ensures items { IfOk result (λ n. n.items ≡ catalogue) }
    {
        let (tiles, sums) = GroupConfig::both_alone(alloc, room, blanks, gates)?;
        Node::new(alloc, config, catalogue, tiles, sums)
    }
}

impl<R: Wait, S: Source<R> + Drop, J: System, N, T> Node<R, S, J, N, T> {
    /// Takes the passes of a worker: one of each group. None where one of them is missing.
    pub fn pass(&self, rt: &R) -> Option<Passes<J>> {
        let tiles = self.groups.tiles().group();
        let tile = tiles.pass(rt)?;
        let Some(mut sum) = self.groups.sums().pass(rt) else {
            tiles.give_back(rt, tile);
            return None;
        };
        // Both bear one number, by which a record tells whose steps they count.
        sum.id = tile.id;
        Some(Passes { tile, sum })
    }

    /// Returns how many samples and sums of shared values were kept beside one answer so far, at most.
    pub fn most_kept(&self, rt: &R) -> u64 {
        self.kept.most(rt)
    }

    /// Takes the passes of a worker back.
    pub fn give_back(&self, rt: &R, passes: Passes<J>) {
        let Passes { tile, sum } = passes;
        self.groups.tiles().group().give_back(rt, tile);
        self.groups.sums().give_back(rt, sum);
    }
}

impl<
    R: Threads + Wait + Clock + Sync,
    S: Source<R> + Drop + Sync,
    J: System + Send + Sync,
    N: Links<J, R> + Sync,
    T: Gate<R> + Sync,
> Node<R, S, J, N, T> {
    /// Sends an image for an accepted request, band by band.
    fn send_loaded<W: Outlet>(
        &self,
        host: &Host<'_, R>,
        passes: &mut [Passes<J>],
        asked: &Asked<'_, R, S>,
        out: &mut W,
    ) -> Result<Sent, Cut>
        requires some { 0 < length passes.old }
        requires ready { WasAccepted asked.now }
        requires found { WasFound self.now asked.now }
        requires loaded { is_loaded asked.now.part ≡ true }
        ensures { SendsFor S.Source J.honest self.now asked.now (writes W.contents W.fails out.old out.new) result }
    {
        let Ok(head) = image_head(
            host.alloc,
            asked.part,
            self.config.base(),
            asked.entry.name.as_str(),
            asked.accepted,
        ) else {
            return send_message(out, asked.part, Err(AllocError));
        };
        let Ok(job) = self.job(host.alloc, asked.entry, asked.accepted) else {
            return send_message(out, asked.part, Err(AllocError));
        };
        let planned = Planned {
            job: &job,
            head: &head,
        };
        self.send_job(host, passes, asked, &planned, out)
    }

    /// Sends the image of a job for an accepted request behind its head, band by band.
    fn send_job<W: Outlet>(
        &self,
        host: &Host<'_, R>,
        passes: &mut [Passes<J>],
        asked: &Asked<'_, R, S>,
        planned: &Planned<'_>,
        out: &mut W,
    ) -> Result<Sent, Cut>
        requires some { 0 < length passes.old }
        requires ready { WasAccepted asked.now }
        requires loaded { is_loaded asked.now.part ≡ true }
        requires job { PlansJob J.System S.Source asked.now planned.now }
        requires head { PlansHead self.now asked.now planned.now }
        ensures { SendsFor S.Source J.honest self.now asked.now (writes W.contents W.fails out.old out.new) result }
    {
        // Laws of images and of groups.
        picture_is_shown(asked.entry);
        groups_serve_jobs::<J>(planned.job);
        let items = GroupItems(self.groups(), &self.queue);
        let context = RenderContext {
            rt: host.rt,
            alloc: host.alloc,
            tiles: &items,
            sums: &items,
        };
        let rows = self.config.band();
        let sending = Sending {
            job: planned.job,
            rows,
            kind: asked.accepted.kind,
            start: planned.head,
        };
        match send_counted(&self.kept, &context, passes, &sending, out) {
            Ok(delivered) => Ok(Sent {
                status: 200,
                bytes: delivered.bytes,
                held: delivered.held,
            }),
            Err(Stopped::Writer(sent)) => Err(Cut {
                sent,
                cause: Cause::Writer,
            }),
            Err(Stopped::Load(sent, fault)) => {
                if sent == 0 {
                    send_fault(host.alloc, asked.part, fault, out)
                } else {
                    Err(Cut {
                        sent,
                        cause: Cause::Load(fault),
                    })
                }
            }
        }
    }

    /// Sends that part of the answer to an accepted request: for a head the passes stay as they are.
    fn send_accepted<W: Outlet>(
        &self,
        host: &Host<'_, R>,
        passes: &mut [Passes<J>],
        asked: &Asked<'_, R, S>,
        out: &mut W,
    ) -> Result<Sent, Cut>
        requires some { 0 < length passes.old }
        requires ready { WasAccepted asked.now }
        requires found { WasFound self.now asked.now }
        ensures allowed { SendsFor S.Source J.honest self.now asked.now (writes W.contents W.fails out.old out.new) result }
        ensures unasked { is_loaded asked.now.part ≡ false → passes.new ≡ passes.old }
    {
        match asked.part {
            Part::Head { closes: close } => {
                let message = head_message(
                    host.alloc,
                    close,
                    &self.config,
                    asked.entry,
                    asked.accepted,
                );
                send_message(out, asked.part, message)
            }
            Part::Body | Part::Whole { .. } => self.send_loaded(host, passes, asked, out),
        }
    }

    /// Records a step of an answer.
    fn note(&self, rt: &R, pass: u64, step: Step, target: &[u8]) {
        let note = Note {
            step,
            class: Class::Local,
            rank: 0,
            pass,
            ticket: 0,
            key: target,
        };
        self.groups.sums().gate().note(rt, &note);
    }

    /// Records that a target is asked for, and by which passes its answer is made. Returns the number of the first of them.
    fn note_want(&self, rt: &R, passes: &[Passes<J>], target: &[u8]) -> u64 {
        let pass = match passes.first() {
            Some(first) => first.tile.id,
            None => 0,
        };
        for one in passes {
            self.note(rt, pass, Step::Worker(one.tile.id), &[]);
        }
        self.note(rt, pass, Step::Wanted, target);
        pass
    }

    /// Sends that part of the answer to a target, and records it, where steps are recorded.
    fn answer<W: Outlet>(
        &self,
        host: &Host<'_, R>,
        passes: &mut [Passes<J>],
        part: Part,
        target: &[u8],
        out: &mut W,
    ) -> Result<Sent, Cut>
        requires some { 0 < length passes.old }
        ensures allowed { SendsForTarget S.Source J.honest self.now part target.now (writes W.contents W.fails out.old out.new) result }
        ensures unasked { SparesForTarget S.Source J.honest self.now part target.now passes.old passes.new }
    {
        let is_head = matches!(part, Part::Head { .. });
        if is_head || !self.groups.sums().gate().records() {
            return self.send_target(host, passes, part, target, out);
        }
        let pass = self.note_want(host.rt, passes, target);
        let sent = self.send_target(host, passes, part, target, out);
        let step = match &sent {
            Ok(sent) => Step::Ended(sent.status),
            Err(_) => Step::Cut,
        };
        self.note(host.rt, pass, step, &[]);
        sent
    }

    /// Sends that part of the answer to a target.
    fn send_target<W: Outlet>(
        &self,
        host: &Host<'_, R>,
        passes: &mut [Passes<J>],
        part: Part,
        target: &[u8],
        out: &mut W,
    ) -> Result<Sent, Cut>
        requires some { 0 < length passes.old }
        ensures allowed { SendsForTarget S.Source J.honest self.now part target.now (writes W.contents W.fails out.old out.new) result }
        ensures unasked { SparesForTarget S.Source J.honest self.now part target.now passes.old passes.new }
    {
        match outcome_of(host.alloc, &self.config, self.images(), target) {
            Outcome::Image(entry, accepted) => {
                let asked = Asked {
                    part,
                    entry,
                    accepted: &accepted,
                };
                self.send_accepted(host, passes, &asked, out)
            }
            told => {
                let message = message_of(host.alloc, part, &self.config, &told);
                send_message(out, part, message)
            }
        }
    }

    /// Sends the body of the answer to a GET of a target. Where it is no image, the passes stay as they are.
    pub fn body_one<W: Outlet>(
        &self,
        rt: &R,
        alloc: Global,
        passes: &mut [Passes<J>],
        target: &[u8],
        out: &mut W,
    ) -> Result<Sent, Cut>
        requires some { 0 < length passes.old }
        ensures allowed { SendsForTarget S.Source J.honest self.now Body target.now (writes W.contents W.fails out.old out.new) result }
        ensures framed { FramesPart self.now Body (writes W.contents W.fails out.old out.new) result }
        ensures unasked { SparesUnlessImage S.Source J.honest self.now target.now passes.old passes.new }
    {
        let host = Host { rt, alloc };
        self.answer(&host, passes, Part::Body, target, out)
    }

    /// Answers a call: to GET with head and body, to HEAD with the same head alone. Where no image is loaded, as for HEAD, the passes
    /// stay as they are. An image that is asked for is sent whole where no read of it failed and the writer didn't, but for lack of memory.
    pub fn serve_one<W: Outlet>(
        &self,
        rt: &R,
        alloc: Global,
        passes: &mut [Passes<J>],
        call: &Call,
        out: &mut W,
    ) -> Result<Sent, Cut>
        requires some { 0 < length passes.old }
        ensures allowed { SendsForCall S.Source J.honest self.now call.now (writes W.contents W.fails out.old out.new) result }
        ensures framed { FramesCall self.now call.now (writes W.contents W.fails out.old out.new) result }
        ensures unasked { SparesForCall S.Source J.honest self.now call.now passes.old passes.new }
        ensures whole { SendsWhole S.Source J.honest self.now call.now (writes W.contents W.fails out.old out.new) result }
    {
        // A law of answers.
        whole_over_honest_devices::<R, S, J, W>();
        let part = part_of(call);
        if is_answered(call) {
            let host = Host { rt, alloc };
            self.answer(&host, passes, part, &call.target, out)
        } else {
            let message = refusal_message(alloc, part, Refusal::Method);
            send_message(out, part, message)
        }
    }
}
