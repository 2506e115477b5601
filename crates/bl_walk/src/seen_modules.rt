//! The modules of a Multiboot2 kernel.
ghost use Rattle.std.specs.Prelude.{◌≤◌, All};
ghost use Rattle.bl_mbi.specs.InfoToWriteFacts.{IsModule};
ghost use Rattle.bl_walk.specs.Seen.{IsSeenModule, AreSeenModules};
ghost use Rattle.bl_walk.specs.internal.Walking.{FindsOrFaults, IsModuleFollowed};

use crate::fault::WalkFault;
use crate::followed_bytes::follow;
use crate::seen::SeenModule;
use bl_image::Image;
use bl_mbi::Module;
use bl_mem::Bytes;
use std::alloc::Allocator;

/// A module with its bytes.
fn module_at<'a, A: Allocator + Copy>(
    alloc: A,
    image: &'a Image<A>,
    told: &Module<A>,
) -> Result<SeenModule<'a, A>, WalkFault>
    requires forward { told.now.mod_start ≤ told.now.mod_end }
    requires followed { IsModuleFollowed image.now told.now }
    ensures { FindsOrFaults image.now (IsSeenModule image.now.parts told.now) result }
{
    let bytes = follow(image, told.mod_start as u64, told.mod_end - told.mod_start)?;
    Ok(SeenModule {
        mod_start: told.mod_start,
        bytes,
        line: Bytes::copy(alloc, told.line.as_slice())?,
    })
}

/// The modules with their bytes.
pub(crate) fn modules_at<'a, A: Allocator + Copy>(
    alloc: A,
    image: &'a Image<A>,
    modules: &[Module<A>],
) -> Result<Vec<SeenModule<'a, A>, A>, WalkFault>
    requires forward { All IsModule modules.now }
    requires followed { All (IsModuleFollowed image.now) modules.now }
    ensures { FindsOrFaults image.now
        (λ seen. AreSeenModules image.now.parts modules.now seen.items) result }
{
    let mut seen = Vec::with_capacity(alloc, modules.len())?;
    for told in modules {
        seen.push(module_at(alloc, image, told)?)?;
    }
    Ok(seen)
}
