//! Laws of the values that groups answer. The functions compute nothing: their contracts are the laws, for the crates above.

ghost use Rattle.std.specs.Prelude.{◌≡◌, IsTrue};
ghost use Rattle.iiif_keys.specs.Names.{named, IsSource};
ghost use Rattle.iiif_keys.specs.Shapes.{HasPicture};
ghost use Rattle.iiif_assemble.specs.Jobs.{IsShown, SumsServe, TilesServe};
ghost use Rattle.iiif_group_items.specs.Values.{SumIsNamed, SumMayBe, TileIsNamed, TileMayBe};

use iiif_assemble::Job;
use iiif_keys::{CacheKey, SumKey, System, TileKey};

/// So the image of a job may be made of the groups of a node that has the picture of the job's name, with the job's edge: keys of
/// its plan may be asked for, and values have their shape; they are what they mean where the name's source is stable and other
/// nodes are honest.
pub fn groups_serve_jobs<J: System>(job: &Job)
    requires known { HasPicture J.pictures job.now.name job.now.shape }
    requires edge { job.now.edge ≡ J.edge }
    ensures tiles { TilesServe job.now (TileIsNamed J.pictures J.edge) (TileMayBe J.pictures J.stable J.honest) }
    ensures sums { SumsServe job.now (SumIsNamed J.pictures J.edge) (SumMayBe J.pictures J.stable J.honest) }
    ensures shown { IsSource (named J.pictures job.now.name) → J.stable job.now.name → IsTrue J.honest
        → IsShown J.pictures job.now (TileMayBe J.pictures J.stable J.honest) (SumMayBe J.pictures J.stable J.honest) }
{
    // Laws of keys.
    TileKey::laws();
    SumKey::laws();
}
