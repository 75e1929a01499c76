//! The node that listens where the words say.

ghost use Rattle.std.specs.Prelude.{◌≡◌, ◌≤◌, ℕ, List, None, Some, IfOk, IsTrue, true};
ghost use Rattle.iiif_source.specs.declared.ReadFault.{ReadFault};
ghost use Rattle.iiif_answers.specs.Settings.{refusal_of};
ghost use Rattle.iiif_program.specs.Lines.{settings_in};
ghost use Rattle.iiif_tile_group.specs.Collection.{item_named};
ghost use Rattle.iiif_tile_group.specs.Named.{gave_of, pictures_of};
ghost use Rattle.iiif_start.specs.Stored.{bytes_of, keeps_of, stored_gave};
ghost use Rattle.iiif_keys.specs.Ledgers.{all_parts};
ghost use Rattle.iiif_peer_link.specs.Honest.{IsHonestTo};
ghost use Rattle.iiif_peer_versions.specs.Keys.{IsSpelled};
ghost use Rattle.iiif_peer_versions.specs.Told.{told_by};

use crate::listed::{Lists, Named};
use crate::node_config::{NodeConfig, images_of, open_node, versions_for, watcher_of};
use crate::record::{begin_record, record_of};
use crate::settings::options_of;
use crate::slot::Slot;
use crate::work::Listening;
use clap::ArgMatches;
use iiif_command_line::Options;
use iiif_connections::{
    NoLink, Node, RecordGate, Server, Start, among, serve_generation, serve_start,
};
use iiif_io::Outlet;
use iiif_keys::{PARTS, System};
use iiif_listener::{Inbox, OpenConnections};
use iiif_log::{Moment, write_lines};
use iiif_open_files::{Opens, ReadFailures, Texts};
use iiif_peer_link::Reaches;
use iiif_peer_versions::FileVersions;
use iiif_services::{
    AllPlaces, Controller, Controls, Ended, Listeners, Started, Starts, Step, Work, take_all,
};
use iiif_start::{Reason, Stop, Stored, report_fault, touch, warn, warn_of_room};
use std::alloc::Global;
use std::io::Write;
use std::marker::Brand;
use std::net::{Net, TcpListener, TcpStream};
use std::rt::Clock;
use std::sync::ledger::Blank;
use std::sync::{Arc, Wait};
use std::thread;
use std::thread::Threads;
use std::time::Duration;

/// How long from one look at the generations to the next, once the server ends, in milliseconds.
const LOOK: u64 = 10;

/// Work of a server's listeners: they put connections into its inbox until its end is given.
#[derive(Drop)]
struct UntilEnd<'r, 'l, R> {
    rt: &'r R,
    end: &'l Slot<Ended>,
}

impl<'r, 'l, R: Wait> Work for UntilEnd<'r, 'l, R> {
    fn run(self) -> Ended {
        self.end.take(self.rt)
    }
}

/// Serves those who connect, by a node as the options ask for, and by another one each time that the server is told to read the lists
/// again.
pub(crate) fn serve<'a, R, E>(
    rt: &R,
    alloc: Global,
    options: &Options<'a>,
    listening: &Listening<'_>,
    named: Named<'_, '_>,
    err: &mut E,
) -> Result<u8, Stop<'a>>
where
    R: Opens + Texts + Controls,
    R: Net<Listener = TcpListener, Stream = TcpStream> + Threads + Wait + Clock + Sync,
    R: AllocGlobal,
    R::Handle: Send + Sync,
    E: Outlet + Send,
    ensures { IfOk result (λ status. status ≤ 2) }
{
    let Ok(places) = AllPlaces::new(alloc, listening.addresses.per_address) else {
        return Err(Stop::Memory);
    };
    serve_within(rt, alloc, &places, options, listening, named, err)
}

/// Serves those who connect, as many at a time as there are places.
fn serve_within<'p, 'a, R, E>(
    rt: &'p R,
    alloc: Global,
    places: &'p AllPlaces,
    options: &Options<'a>,
    listening: &Listening<'_>,
    named: Named<'_, '_>,
    err: &mut E,
) -> Result<u8, Stop<'a>>
where
    R: Opens + Texts + Controls,
    R: Net<Listener = TcpListener, Stream = TcpStream> + Threads + Wait + Clock + Sync,
    R: AllocGlobal,
    R::Handle: Send + Sync,
    E: Outlet + Send,
    ensures { IfOk result (λ status. status ≤ 2) }
{
    let mut watcher = watcher_of(alloc, options, listening.logs)?;
    watcher.record = record_of(rt, alloc, listening.record)?;
    watcher.started = Moment::now(rt);
    let listeners = match Listeners::bind(rt, alloc, &listening.addresses) {
        Ok(listeners) => listeners,
        Err(error) => return Err(Stop::Listen(Reason::new(&error))),
    };
    let inbox = match Inbox::new(rt, alloc, listeners.doors()) {
        Ok(inbox) => inbox,
        Err(error) => return Err(Stop::Listen(Reason::new(&error))),
    };
    let (connections, starts) = (OpenConnections::new(), Starts::new());
    let server = Server {
        rt,
        alloc,
        workers: options.workers,
        times: listening.times,
        watcher: &watcher,
        connections: &connections,
        listeners: &listeners,
        inbox: &inbox,
        starts: &starts,
    };
    let control = listening.addresses.control;
    let limit = options.limits.drain_seconds.saturating_mul(1_000);
    let ended = serve_by(&server, places, named, control, limit, &mut *err);
    status_at(ended, err)
}

/// Serves by generations that have what stays of a server in common, while a thread of its own writes the lines of the first start and of
/// the log. Where no thread can be started for them, they are written at the end.
fn serve_by<'p, R, E>(
    server: &Server<'_, 'p, R>,
    places: &'p AllPlaces,
    named: Named<'_, '_>,
    control: Option<&str>,
    limit: u64,
    err: &mut E,
) -> Ended
where
    R: Opens + Texts + Controls,
    R: Net<Listener = TcpListener, Stream = TcpStream> + Threads + Wait + Clock + Sync,
    R: AllocGlobal,
    R::Handle: Send + Sync,
    E: Outlet + Send,
{
    let slot = Slot::new();
    let first = &slot;
    let (_, ended) = thread::join(
        server.rt,
        || write_all_lines(server, first, err),
        || {
            let ended = serve_beside(server, places, named, control, limit, first);
            end_lines(server, first);
            ended
        },
    );
    ended
}

/// Serves by generations, while the listeners put connections into the inbox in threads of their own. Where one is missing for a listener,
/// all listeners end, and the server with them.
fn serve_beside<'p, R>(
    server: &Server<'_, 'p, R>,
    places: &'p AllPlaces,
    named: Named<'_, '_>,
    control: Option<&str>,
    limit: u64,
    first: &Slot<Vec<u8>>,
) -> Ended
where
    R: Opens + Texts + Controls,
    R: Net<Listener = TcpListener, Stream = TcpStream> + Threads + Wait + Clock + Sync,
    R: AllocGlobal,
    R::Handle: Send + Sync,
{
    let (rt, alloc) = (server.rt, server.alloc);
    let (listeners, inbox, starts) = (server.listeners, server.inbox, server.starts);
    let slot = Slot::new();
    let end = &slot;
    thread::scope(thread::scope_env(), rt, |scope| {
        if scope
            .spawn(move || take_until(server, places, end))
            .is_err()
        {
            return Ended::Listener;
        }
        let mut controller = Controller::new(rt, alloc, listeners, places, inbox, starts, limit);
        let ended = serve_generations(server, named, control, &mut controller, first);
        end.give(rt, Ended::Whole);
        ended
    })
}

/// Puts the connections of all listeners into the inbox until the end is given. What else ends them is found by the controller.
fn take_until<'p, R>(server: &Server<'_, 'p, R>, places: &'p AllPlaces, end: &Slot<Ended>)
where
    R: Net<Listener = TcpListener, Stream = TcpStream> + Threads + Wait + Clock + Sync,
{
    let (rt, alloc) = (server.rt, server.alloc);
    let _ = take_all(
        rt,
        alloc,
        server.listeners,
        places,
        server.inbox,
        server,
        server.health_checker(),
        UntilEnd { rt, end },
    );
}

/// Writes the lines of the first start, and then those of the log as they come, where there is one.
fn write_all_lines<R: Wait, E: Outlet>(
    server: &Server<'_, '_, R>,
    first: &Slot<Vec<u8>>,
    err: &mut E,
) {
    let said = first.take(server.rt);
    // Where they can't be written, it serves all the same.
    let _ = err.write_all(&said);
    if let Some(log) = &server.watcher.log {
        write_lines(server.rt, server.alloc, log, err);
    }
}

/// Has the thread that writes lines end behind the last one, also where nothing was served.
fn end_lines<R: Wait>(server: &Server<'_, '_, R>, first: &Slot<Vec<u8>>) {
    first.give(server.rt, Vec::new(server.alloc));
    if let Some(log) = &server.watcher.log {
        log.close(server.rt);
    }
}

/// Returns the status of a server that ended, and writes the lines of one that couldn't start.
fn status_at<'a, E: Write>(ended: Ended, err: &mut E) -> Result<u8, Stop<'a>>
    ensures { IfOk result (λ status. status ≤ 2) }
{
    match ended {
        Ended::Whole => Ok(0),
        Ended::Cut => Err(Stop::Cut),
        Ended::Listener => Err(Stop::Listen(Reason::Other)),
        Ended::Unstarted(started) => {
            let Started { status, said, .. } = started;
            // Where the lines can't be written, the status says it.
            let _ = err.write_all(&said);
            Ok(status)
        }
    }
}

/// Waits until all generations have ended.
fn await_generations<R: Wait + Clock>(server: &Server<'_, '_, R>) {
    let rt = server.rt;
    for _ in rt.forever() {
        if server.inbox.alive(rt) == 0 {
            return;
        }
        thread::sleep(rt, Duration::from_millis(LOOK));
    }
}

/// Ends what listens, removes the socket for commands, tells who waits for the end, and waits for it.
fn end_all<R: Controls + Wait + Clock>(
    server: &Server<'_, '_, R>,
    control: Option<&str>,
    controller: &mut Controller<'_, '_, R>,
    ended: &Ended,
) {
    let rt = server.rt;
    server.listeners.end(rt);
    if let Some(path) = control {
        rt.remove_control(path);
    }
    controller.close(ended);
    await_generations(server);
}

/// Serves by the first generation, and by the next each time that the controller says so, each in a thread of its own.
fn serve_generations<'x, 'p, R>(
    server: &Server<'x, 'p, R>,
    named: Named<'_, '_>,
    control: Option<&str>,
    controller: &mut Controller<'x, 'p, R>,
    first: &Slot<Vec<u8>>,
) -> Ended
where
    R: Opens + Texts + Controls,
    R: Net<Listener = TcpListener, Stream = TcpStream> + Threads + Wait + Clock + Sync,
    R: AllocGlobal,
    R::Handle: Send + Sync,
{
    let rt = server.rt;
    let Named { matches, lists } = named;
    thread::scope(thread::scope_env(), rt, |scope| {
        if server.listeners.statistics.is_some() {
            server.inbox.enter(rt);
            // Where no thread can be started, they wait for the first generation.
            if scope.spawn(move || serve_start(server)).is_err() {
                server.inbox.end(rt);
            }
        }
        if scope
            .spawn(move || serve_first(server, matches, lists))
            .is_err()
        {
            server.inbox.end(rt);
            end_all(server, control, controller, &Ended::Listener);
            return Ended::Listener;
        }
        match controller.await_first() {
            Ok(said) => first.give(rt, said),
            Err(ended) => {
                end_all(server, control, controller, &ended);
                return ended;
            }
        }
        for _ in rt.forever() {
            match controller.next() {
                Step::Start(number) => {
                    let started = scope.spawn(move || serve_again(server, matches, number));
                    if started.is_err() {
                        controller.refuse_start();
                    }
                }
                Step::Over(ended) => {
                    end_all(server, control, controller, &ended);
                    return ended;
                }
            }
        }
        unreachable!()
    })
}

/// Serves as the first generation the images of the lists that were read at the start.
fn serve_first<R>(server: &Server<'_, '_, R>, matches: &ArgMatches<'_>, lists: &Lists)
where
    R: Opens
        + Net<Listener = TcpListener, Stream = TcpStream>
        + Threads
        + Wait
        + Clock
        + Sync
        + AllocGlobal,
    R::Handle: Send + Sync,
{
    serve_listed(server, matches, lists, 1);
    server.inbox.end(server.rt);
}

/// Serves as the generation of a number the images of the lists as they are now.
fn serve_again<R>(server: &Server<'_, '_, R>, matches: &ArgMatches<'_>, number: u64)
where
    R: Opens
        + Texts
        + Net<Listener = TcpListener, Stream = TcpStream>
        + Threads
        + Wait
        + Clock
        + Sync
        + AllocGlobal,
    R::Handle: Send + Sync,
{
    let lists = Lists::read(server.rt, server.alloc, matches);
    serve_listed(server, matches, &lists, number);
    server.inbox.end(server.rt);
}

/// Tells that a generation can't start, for a status and in lines.
fn tell_unstarted<R: Wait>(server: &Server<'_, '_, R>, status: u8, said: Vec<u8>)
    requires { status ≤ 2 }
{
    let started = Started {
        status,
        images: 0,
        said,
    };
    server.starts.tell(server.rt, started);
}

/// Serves as the generation of a number the images that the words and lists name, until another one does. Where it can't start, that is
/// told.
fn serve_listed<R>(server: &Server<'_, '_, R>, matches: &ArgMatches<'_>, lists: &Lists, number: u64)
where
    R: Opens
        + Net<Listener = TcpListener, Stream = TcpStream>
        + Threads
        + Wait
        + Clock
        + Sync
        + AllocGlobal,
    R::Handle: Send + Sync,
{
    let (rt, alloc) = (server.rt, server.alloc);
    let mut said = Vec::new(alloc);
    let manifest = lists.manifest(alloc);
    let options = match options_of(alloc, matches, lists.listed(matches, &manifest)) {
        Ok(options) => options,
        Err(fault) => {
            let status = report_fault(&mut said, fault, &lists.origins(matches));
            return tell_unstarted(server, status, said);
        }
    };
    if number == 1 {
        if let Err(stop) = prepare(server, &options) {
            let status = stop.report(&mut said);
            return tell_unstarted(server, status, said);
        }
    }
    match open_versioned(rt, alloc, &options, &server.watcher.failures, &mut said) {
        Ok((made, versions)) => serve_options(server, &options, made, &versions, (number, said)),
        Err(stop) => {
            let status = stop.report(&mut said);
            tell_unstarted(server, status, said);
        }
    }
}

/// Makes the parts of the options' node, and the versions of its images' files, where the options ask for them: of those that were the
/// same before and after they were opened.
fn open_versioned<'a, R: Opens + Wait>(
    rt: &R,
    alloc: Global,
    options: &Options<'a>,
    failures: &Arc<ReadFailures>,
    said: &mut Vec<u8>,
) -> Result<(NodeConfig<R>, Option<FileVersions>), Stop<'a>>
    requires { refusal_of (settings_in options.now) ≡ None }
{
    let before = versions_for(rt, alloc, options, None)?;
    let made = open_node(rt, alloc, options, Some(failures), said)?;
    let versions = versions_for(rt, alloc, options, before.as_ref())?;
    Ok((made, versions))
}

/// Does what is done before the first generation alone: memory is written to, and the other nodes' addresses are looked up.
fn prepare<'a, R>(server: &Server<'_, '_, R>, options: &Options<'a>) -> Result<(), Stop<'a>>
where
    R: Net + Wait,
{
    if touch(server.alloc, options.touch_bytes).is_err() {
        return Err(Stop::Memory);
    }
    if !options.peers.is_empty() {
        server.watcher.peers.look_up(server.rt, server.alloc);
    }
    Ok(())
}

/// Serves as the generation of a number by a node that is made of these, as the options ask for. It warns of what clients can't ask for,
/// and of a cache that can't be filled.
fn serve_options<'a, R>(
    server: &Server<'_, '_, R>,
    options: &Options<'a>,
    made: NodeConfig<R>,
    versions: &Option<FileVersions>,
    start: (u64, Vec<u8>),
)
where
    R: Opens
        + Net<Listener = TcpListener, Stream = TcpStream>
        + Threads
        + Wait
        + Clock
        + Sync
        + AllocGlobal,
    R::Handle: Send + Sync,
{
    let (number, mut said) = start;
    if let Some(record) = &server.watcher.record {
        if begin_record(
            server.rt,
            server.alloc,
            record,
            number,
            options,
            &made.catalogue,
        )
        .is_err()
        {
            return refuse_memory(server, said);
        }
    }
    // Where the warnings can't be written, it serves all the same.
    let _ = warn(&mut said, options.base, &options.images);
    let _ = warn_of_room(
        &mut said,
        options.cache_bytes,
        options.cache_entries,
        options.edge,
    );
    let start = Start {
        number,
        images: images_of(&made, options),
        versions: versions.as_ref(),
        said,
    };
    let blanks = (Blank::new(PARTS), Blank::new(PARTS));
    if options.peers.is_empty() {
        serve_alone::<R, Brand>(server, made, blanks, start);
    } else {
        serve_among::<R, Brand>(server, made, blanks, start);
    }
}

/// Tells that a generation can't start, since memory was refused for its node.
fn refuse_memory<R: Wait>(server: &Server<'_, '_, R>, mut said: Vec<u8>) {
    let status = Stop::Memory.report(&mut said);
    tell_unstarted(server, status, said);
}

/// Serves by a node that asks no other.
fn serve_alone<R, J: System + Send + Sync>(
    server: &Server<'_, '_, R>,
    made: NodeConfig<R>,
    blanks: (Blank, Blank),
    start: Start<'_>,
)
where
    R: Opens + Net<Listener = TcpListener, Stream = TcpStream> + Threads + Wait + Clock + Sync,
    R: AllocGlobal,
    R::Handle: Send + Sync,
    requires pictures { (name : List ℕ) → J.pictures name ≡ pictures_of (bytes_of R.holds) made.catalogue name }
    requires gave { (name : List ℕ) (f : ReadFault) → J.gave name f ≡ gave_of stored_gave made.catalogue name f }
    requires stable { (name : List ℕ) (item : _) → item_named made.catalogue name ≡ Some item → J.stable name →
        ∥ keeps_of R.keeps item.source ∥₁ }
    requires kept { (name : List ℕ) (item : _) → item_named made.catalogue name ≡ Some item → keeps_of R.keeps item.source →
        J.stable name }
    requires edge { made.config.edge ≡ J.edge }
    requires honest { J.honest ≡ true }
    requires tiles { (blanks.0.name ≡ J.tiles_name) × (blanks.0.parts ≡ J.tiles_parts) × (J.tiles_parts ≡ all_parts) }
    requires sums { (blanks.1.name ≡ J.sums_name) × (blanks.1.parts ≡ J.sums_parts) × (J.sums_parts ≡ all_parts) }
{
    let NodeConfig {
        config,
        catalogue,
        room,
        ..
    } = made;
    let gate = RecordGate(server.watcher.record.as_ref());
    let Ok(node) = Node::<R, Stored<R>, J, NoLink, RecordGate<'_>>::alone_by(
        server.alloc,
        config,
        catalogue,
        room,
        blanks,
        (gate, gate),
    ) else {
        return refuse_memory(server, start.said);
    };
    serve_generation(server, &node, start);
}

/// Serves by a node that asks the watcher's others.
fn serve_among<R, J: System + Send + Sync>(
    server: &Server<'_, '_, R>,
    made: NodeConfig<R>,
    blanks: (Blank, Blank),
    start: Start<'_>,
)
where
    R: Opens + Net<Listener = TcpListener, Stream = TcpStream> + Threads + Wait + Clock + Sync,
    R: Reaches<Line = TcpStream> + AllocGlobal,
    R::Handle: Send + Sync,
    requires pictures { (name : List ℕ) → J.pictures name ≡ pictures_of (bytes_of R.holds) made.catalogue name }
    requires gave { (name : List ℕ) (f : ReadFault) → J.gave name f ≡ gave_of stored_gave made.catalogue name f }
    requires stable { (name : List ℕ) (item : _) → item_named made.catalogue name ≡ Some item → J.stable name →
        ∥ keeps_of R.Opens.keeps item.source ∥₁ }
    requires kept { (name : List ℕ) (item : _) → item_named made.catalogue name ≡ Some item → keeps_of R.Opens.keeps item.source →
        J.stable name }
    requires edge { made.config.edge ≡ J.edge }
    requires honest { IsTrue J.honest → IsTrue R.Reaches.keeps
        × IsHonestTo (IsSpelled (told_by start.versions)) R.answers J.stable J.pictures }
    requires tiles { (blanks.0.name ≡ J.tiles_name) × (blanks.0.parts ≡ J.tiles_parts) × (J.tiles_parts ≡ all_parts) }
    requires sums { (blanks.1.name ≡ J.sums_name) × (blanks.1.parts ≡ J.sums_parts) × (J.sums_parts ≡ all_parts) }
{
    let NodeConfig {
        config,
        catalogue,
        room,
        ..
    } = made;
    let (alloc, watcher, versions) = (server.alloc, server.watcher, start.versions);
    let Ok(node) = among::<R, R, J>(alloc, config, catalogue, watcher, versions, room, blanks)
    else {
        return refuse_memory(server, start.said);
    };
    serve_generation(server, &node, start);
}
