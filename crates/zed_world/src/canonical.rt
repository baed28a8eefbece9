//! Files that are exactly what the writer makes.
ghost use Rattle.std.specs.Prelude.{◌≡◌, ◌↔◌, IsTrue, IfOk, IfErr};
ghost use Rattle.zed_world.specs.Reading.{BeginsAWorld};
ghost use Rattle.zed_world.specs.Canonical.{IsCanonical, is_canonical};

use crate::error::WorldError;
use crate::reading::read_world;
use crate::writing::write_world;
use std::alloc::Global;
use zed_types::READ_BODY_LIMIT;

/// Whether the bytes are a world file exactly as `write_world` makes it: they can be read, and
/// writing what was read gives them back.
///
/// A file that is read with leniency isn't canonical, nor is one with bytes after its last board.
/// `Memory` is the only refusal.
#[tactic(auto, unfolding(crate::specs::Canonical::is_canonical))]
pub fn is_canonical(alloc: Global, bytes: &[u8]) -> Result<bool, WorldError>
    ensures result { IfOk result (λ is. IsTrue is ↔ IsCanonical bytes.now) }
    ensures canonical { IfOk result (λ is. is ≡ is_canonical bytes.now) }
    ensures err { IfErr result (λ e. e ≡ WorldError.Memory) }

    // No growth is needed where the front of the file is at fault already.
    ensures memory_only_when { IfErr result (λ e. BeginsAWorld bytes.now) }
{
    let world = match read_world(alloc, bytes) {
        Ok(world) => world,
        Err(WorldError::Memory) => return Err(WorldError::Memory),
        Err(_) => return Ok(false),
    };
    match write_world(alloc, &world, READ_BODY_LIMIT) {
        Ok(text) => Ok(text.as_slice() == bytes),
        Err(WorldError::Memory) => Err(WorldError::Memory),
        Err(_) => Ok(false),
    }
}
