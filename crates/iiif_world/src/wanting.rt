//! The event of a request.

ghost use Rattle.std.specs.Prelude.{◌≡◌, ◌++◌, slice_get, Some, None, Ok, IfErr, IfOk, MatchOption, OnErr, OnOk};
ghost use Rattle.iiif_request.specs.Requests.{HasShortDecimals};
ghost use Rattle.iiif_machine.specs.Scenes.{IsProper};
ghost use Rattle.iiif_pixel.specs.Picture.{dim_of};
ghost use Rattle.iiif_machine.specs.Plans.{items, kind_of, resolved as resolves};
ghost use Rattle.iiif_machine.specs.Steps.{step};
ghost use Rattle.iiif_machine.specs.Worlds.{speaker, version_shown, with_request};
ghost use Rattle.iiif_machine.specs.declared.events.Event.{Event};
ghost use Rattle.iiif_machine.specs.declared.events.WorldFault.{WorldFault};
ghost use Rattle.iiif_machine.specs.declared.rows.Progress.{Progress};
ghost use Rattle.iiif_machine.specs.Nodes.{node_of};
ghost use Rattle.iiif_world.specs.Code.{world_of};

use crate::contents::{Contents, version_shown};
use iiif_canonical::{Resolved, resolve};
use iiif_keys::Name;
use iiif_machine::calling::{calls_of, keys_of, numbers_of};
use iiif_machine::node::Node;
use iiif_machine::{
    Answer, Call, Key, Numbers, Progress, Purpose, RequestInfo, RequestRow, ShortRequest,
    WorldFault,
};
use iiif_pixel::{Dim, Kind, NoMemory, Raster};
use iiif_planner::plan;
use iiif_request::Request;

/// The sides of a picture.
fn dim_of(picture: &Raster) -> Dim
    ensures { result ≡ dim_of picture.now }
{
    picture.dim()
}

/// Gray or RGB.
fn kind_of(picture: &Raster) -> Kind
    ensures { result ≡ kind_of picture.now }
{
    picture.kind()
}

/// A request that is accepted waits for these calls.
fn waits(resolved: Resolved, calls: Vec<usize>) -> Progress
    ensures { result ≡ Progress.Waiting resolved calls.items }
{
    Progress::Waiting(resolved, Numbers::new(calls))
}

impl Contents {
    /// A request more, and its calls. After an error all is as before.
    fn add_request(&mut self, wanted: RequestRow, calls: Vec<Call>) -> Result<(), NoMemory>
        ensures ok { OnOk result (world_of self.new ≡ record (with_request (world_of self.old) wanted.info wanted.progress)
            { calls = (world_of self.old).calls ++ calls.items }) }
        ensures err { OnErr result (world_of self.new ≡ world_of self.old) }
    {
        let mut calls = calls;
        self.requests.reserve(1)?;
        self.calls.append(&mut calls)?;
        match self.requests.push(wanted) {
            Ok(()) => Ok(()),
            Err(_) => unreachable!(),
        }
    }

    /// The keys of the plan of what a request comes to. The only error is lack of memory.
    fn items_of(
        &self,
        name: &Name,
        picture: &Raster,
        request: &Request,
        resolved: &Resolved,
    ) -> Result<Vec<Key>, NoMemory>
        requires proper { IsProper (world_of self.now).scene }
        requires shown { (world_of self.now).scene.shows name.now ≡ Some picture.now }
        requires resolved { resolves (world_of self.now).scene picture.now request.now ≡ Ok resolved.now }
        ensures { IfOk result (λ v. v.items ≡ items (world_of self.now).scene name.now picture.now resolved.now) }
    {
        let alloc = *self.calls.allocator();
        let dim = dim_of(picture);
        let kind = kind_of(picture);
        let plan = plan(alloc, name, resolved, dim, kind, self.edge, self.room)?;
        let keys = keys_of(alloc, plan)?;
        Ok(keys)
    }

    /// A request that is accepted, and the calls of its plan's items. The only error is lack of memory.
    fn accepted(
        &self,
        at: &Node,
        info: RequestInfo,
        picture: &Raster,
        resolved: Resolved,
    ) -> Result<(RequestRow, Vec<Call>), NoMemory>
        requires proper { IsProper (world_of self.now).scene }
        requires node { slice_get (world_of self.now).nodes info.node ≡ Some (node_of at.now) }
        requires shown { (world_of self.now).scene.shows info.name ≡ Some picture.now }
        requires resolved { resolves (world_of self.now).scene picture.now info.request ≡ Ok resolved }
        requires speaks { speaker (node_of at.now) (version_shown picture.now) ≡ Some (node_of at.now) }
        ensures { IfOk result (λ r. step (world_of self.now) (Event.Want info.node info.name info.request)
            ≡ Some (record (with_request (world_of self.now) r.0.info r.0.progress) { calls = (world_of self.now).calls ++ r.1.items })) }
    {
        let alloc = *self.calls.allocator();
        let keys = self.items_of(&info.name, picture, &info.request, &resolved)?;
        let numbers = numbers_of(alloc, self.calls.len(), keys.len())?;
        let purpose = Purpose::ForRequest(self.requests.len());
        let calls = calls_of(alloc, info.node, at, purpose, keys)?;
        let progress = waits(resolved, numbers);
        Ok((RequestRow { info, progress }, calls))
    }

    /// The row and the calls that a request to a node adds to the world, where it is allowed. The only error is lack of memory, and
    /// only where it
    /// is allowed.
    fn wanted(
        &self,
        node: usize,
        name: &Name,
        request: &Request,
    ) -> Result<Option<(RequestRow, Vec<Call>)>, NoMemory>
        requires proper { IsProper (world_of self.now).scene }
        requires short { HasShortDecimals request.now }
        ensures ok { IfOk result (λ o. MatchOption o (step (world_of self.now) (Event.Want node name.now request.now) ≡ None)
            (λ r. step (world_of self.now) (Event.Want node name.now request.now)
            ≡ Some (record (with_request (world_of self.now) r.0.info r.0.progress) { calls = (world_of self.now).calls ++ r.1.items }))) }
        ensures err { OnErr result (¬ (step (world_of self.now) (Event.Want node name.now request.now) ≡ None)) }
    {
        let Some(at) = self.node_at(node) else {
            return Ok(None);
        };
        let Some(picture) = self.picture(name) else {
            return Ok(None);
        };
        if !at.speaks(version_shown(picture)) {
            return Ok(None);
        }
        let info = RequestInfo {
            node,
            name: name.copy()?,
            request: *request,
        };
        match resolve(request, dim_of(picture), kind_of(picture), &self.limits) {
            Ok(resolved) => Ok(Some(self.accepted(at, info, picture, resolved)?)),
            Err(refusal) => {
                let progress = Progress::Answered(Answer::Refused(refusal));
                let calls = Vec::new(*self.calls.allocator());
                Ok(Some((RequestRow { info, progress }, calls)))
            }
        }
    }

    /// A request comes to a node.
    pub(crate) fn want(
        &mut self,
        node: usize,
        name: &Name,
        request: &ShortRequest,
    ) -> Result<(), WorldFault>
        requires proper { IsProper (world_of self.old).scene }
        ensures ok { OnOk result (step (world_of self.old) (Event.Want node name.now request.now) ≡ Some (world_of self.new)) }
        ensures not_now { IfErr result (λ f. f ≡ WorldFault.NotNow →
            step (world_of self.old) (Event.Want node name.now request.now) ≡ None) }
        ensures no_memory { IfErr result (λ f. f ≡ WorldFault.NoMemory →
            ¬ (step (world_of self.old) (Event.Want node name.now request.now) ≡ None)) }
        ensures same { OnErr result (world_of self.new ≡ world_of self.old) }
    {
        let Some((wanted, calls)) = self.wanted(node, name, request.request())? else {
            return Err(WorldFault::NotNow);
        };
        self.add_request(wanted, calls)?;
        Ok(())
    }
}
