//! Requests that are planned, and the parts of an image that come of them.

ghost use Rattle.std.specs.Prelude.{◌≡◌, ◌<◌, ◌≤◌, IfOk};
ghost use Rattle.std.specs.Int.{div_ceil};
ghost use Rattle.iiif_pixel.specs.Geometry.{sides_of, LiesIn};
ghost use Rattle.iiif_pixel.specs.Scaling.{whole_of};
ghost use Rattle.iiif_pixel.specs.TurnPlaces.{turned_dim};
ghost use Rattle.iiif_area.specs.Places.{IsScalable};
ghost use Rattle.iiif_keys.specs.Blocks.{IsEdge};
ghost use Rattle.iiif_planner.specs.Bands.{band_rect};
ghost use Rattle.iiif_assemble.specs.Jobs.{HasPlan, IsBandOf, IsJob};
ghost use Rattle.iiif_assemble.specs.Making.{job_of, lent};

use iiif_canonical::Resolved;
use iiif_keys::{Name, Shape};
use iiif_pixel::{NoMemory, Raster, Rect};
use iiif_planner::{Band, Plan, band_at, band_count, band_in, plan};
use std::alloc::Global;

/// A request that is planned.
#[derive(Drop)]
pub struct Job {
    /// The name of the image.
    pub name: Name,
    /// The side of its tiles, in places.
    pub edge: u32,
    /// The image's shape.
    pub shape: Shape,
    /// The request's region, size, turn and quality, in whole places of the image.
    pub resolved: Resolved,
    /// The tiles or blocks that the result is made of.
    pub plan: Plan,
}

/// The image that a plan is of.
#[derive(Clone, Copy)]
pub struct ImageRef<'a> {
    /// The name of the image.
    pub name: &'a Name,
    /// The side of its tiles, in places.
    pub edge: u32,
    /// The image's shape.
    pub shape: Shape,
}

/// A job by its parts, which are lent.
#[derive(Clone, Copy)]
pub(crate) struct JobRef<'a> {
    /// The name of the image.
    pub name: &'a Name,
    /// The side of its tiles, in places.
    pub edge: u32,
    /// The image's shape.
    pub shape: Shape,
    /// The request's region, size, turn and quality, in whole places of the image.
    pub resolved: &'a Resolved,
    /// The tiles or blocks that the result is made of.
    pub plan: &'a Plan,
}

/// A part of an image.
#[derive(Drop)]
pub(crate) struct Made {
    /// The part.
    pub raster: Raster,
    /// How many samples and sums of the result were held at once, at most, while it was made.
    pub held: u64,
}

impl Job {
    /// Plans a resolved request on the named image of this shape: of tiles with this edge, and of blocks with at most `room` sums where
    /// there are such. The only error is lack of memory.
    pub fn new(
        alloc: Global,
        name: Name,
        edge: u32,
        shape: Shape,
        resolved: Resolved,
        room: u64,
    ) -> Result<Job, NoMemory>
        requires edge { IsEdge edge }
        requires room { room ≤ 65536 }
        requires inside { LiesIn resolved.rect shape.dim }
        requires scalable { IsScalable (sides_of resolved.rect) resolved.size }
        requires quarters { resolved.turn.quarters < 4 }
        ensures job { IfOk result IsJob }
        ensures name { IfOk result (λ j. j.name ≡ name) }
        ensures edge { IfOk result (λ j. j.edge ≡ edge) }
        ensures shape { IfOk result (λ j. j.shape ≡ shape) }
        ensures resolved { IfOk result (λ j. j.resolved ≡ resolved) }
        ensures plan { IfOk result (HasPlan room) }
    {
        let plan = plan(alloc, &name, &resolved, shape.dim, shape.kind, edge, room)?;
        Ok(Job {
            name,
            edge,
            shape,
            resolved,
            plan,
        })
    }

    /// Counts the bands of `rows` that the job's result is cut into.
    pub fn band_count(&self, rows: u32) -> u32
        requires rows { 0 < rows }
        ensures { result ≡ div_ceil (turned_dim self.now.resolved.turn self.now.resolved.size).h rows }
    {
        band_count(&self.resolved, rows)
    }

    /// Returns band `i` of the job's result, cut from the top into bands of `rows`, the last perhaps of fewer. It takes the time of that
    /// band's items, however many bands there are. The only error is lack of memory.
    pub fn band(&self, alloc: Global, rows: u32, i: u32) -> Result<Band, NoMemory>
        requires job { IsJob self.now }
        requires rows { 0 < rows }
        requires index { i < div_ceil (turned_dim self.now.resolved.turn self.now.resolved.size).h rows }
        ensures rect { IfOk result (λ b. b.rect ≡ band_rect (turned_dim self.now.resolved.turn self.now.resolved.size) rows i) }
        ensures band { IfOk result (IsBandOf self.now) }
    {
        // Read, so that the image's sides are known to fit.
        let (_w, _h) = (self.shape.dim.w, self.shape.dim.h);
        band_at(alloc, &self.resolved, &self.plan, rows, i)
    }
}

impl<'a> ImageRef<'a> {
    /// Returns the job of the image, of what is asked for, and of the plan of it.
    pub(crate) fn job(&self, resolved: &'a Resolved, plan: &'a Plan) -> JobRef<'a>
        ensures { lent result ≡ job_of self.now resolved.now plan.now }
    {
        JobRef {
            name: self.name,
            edge: self.edge,
            shape: self.shape,
            resolved,
            plan,
        }
    }

    /// Returns the band of all rows of what is asked for. The only error is lack of memory.
    pub(crate) fn full_band(
        &self,
        alloc: Global,
        resolved: &Resolved,
        plan: &Plan,
    ) -> Result<Band, NoMemory>
        requires { IsJob (job_of self.now resolved.now plan.now) }
        ensures rect { IfOk result (λ b. b.rect ≡ whole_of (turned_dim resolved.now.turn resolved.now.size)) }
        ensures band { IfOk result (IsBandOf (job_of self.now resolved.now plan.now)) }
    {
        // Read, so that the image's sides are known to fit.
        let (_w, _h) = (self.shape.dim.w, self.shape.dim.h);
        let dim = resolved.size.turned(resolved.turn);
        let rect = Rect {
            x: 0,
            y: 0,
            w: dim.w,
            h: dim.h,
        };
        band_in(alloc, resolved, plan, rect)
    }
}
