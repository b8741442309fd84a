//! Copies an extent out of a site while other threads run calls there.
ghost use Rattle.std.specs.Prelude.{◌≡◌, IfOk, IfSome};
ghost use Rattle.std.specs.Option.{option_map};
ghost use Rattle.tatp_extents.specs.Parts.{state_of};
ghost use Rattle.tatp_partition.specs.Obstacles.{extent_at_rest};
ghost use Rattle.tatp_threads.specs.Copies.{ArePartsOf};

use std::alloc::{AllocError, Global};
use std::sync::{Mutex, Wait};
use tatp_extents::ExtentParts;
use tatp_partition::{Site, what_holds_of_every_site};

/// Copies the parts of an extent, if it is here and no call runs on one of its homes.
fn copy_of(alloc: Global, site: &Site<'_>, extent: u32) -> Result<Option<ExtentParts>, AllocError>
    ensures copy { IfOk result (λ copy. option_map state_of copy ≡ extent_at_rest site.now extent) }
    ensures parts { IfOk result (λ copy. IfSome copy (ArePartsOf extent)) }
{
    what_holds_of_every_site(site);
    match site.extent(extent) {
        None => Ok(None),
        Some(found) => {
            let parts = found.copy_parts(alloc)?;
            Ok(Some(parts))
        }
    }
}

/// Copies the parts of an extent, while other threads run calls at its site: the log, the homes at
/// the last checkpoint, and the homes to which the log led from those. `None` if the extent isn't
/// at this site, or if a call runs on one of its homes. The contract of `copy_of`, which borrows
/// the site, says that it is `None` only then; here nothing is known of the site before its
/// lock is taken.
pub fn copy_extent<R: Wait>(
    rt: &R,
    alloc: Global,
    site: &Mutex<Site<'_>>,
    extent: u32,
) -> Result<Option<ExtentParts>, AllocError>
    ensures { IfOk result (λ copy. IfSome copy (ArePartsOf extent)) }
{
    copy_of(alloc, &*site.lock(rt), extent)
}
