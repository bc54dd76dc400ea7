// Painting. No calls: the caller has to show that the region lies in the arena.
ghost use Rattle.std.specs.Prelude.{◌≡◌, ◌+◌, ◌≤◌, ◌/◌, length};
ghost use Rattle.kernel.specs.Control.{painted};

use kernel::control::{StackRegion, TaskControl};

// The region, a stretch from the middle of the arena, goes to the painter; the words outside are kept.
pub fn paint_region(arena: &mut [u32], region: StackRegion)
    requires { region.start / 4 + region.size / 4 ≤ length arena.old }
    ensures { arena.new ≡ painted region arena.old }
{
    let start = (region.start / StackRegion::WORD_SIZE) as usize;
    let end = start + (region.size / StackRegion::WORD_SIZE) as usize;
    arena[start..end].fill(TaskControl::STACK_MAGIC);
}
