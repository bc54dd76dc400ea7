// For a caller that may know already that the kernel is whole.
ghost use Rattle.std.specs.Prelude.{◌≡◌, true, ◌||◌, not};
ghost use Rattle.kernel.specs.Kernel.{whole};
ghost use Rattle.kernel.specs.Calls.{add, add_words, step};

use crate::{added, check_add};
use kernel::control::{Priority, StackRegion, TaskId};
use kernel::scheduler::{Answer, Kernel, Value};
use leaf_table::internal::answer;

pub fn add_task(
    k: Kernel,
    known: bool,
    priority: Priority,
    region: StackRegion,
    arena: &mut [u32],
) -> Answer
    requires { (not known || whole k) ≡ true }
    ensures { (result ≡ step k (add arena.old priority region)) × (arena.new ≡ add_words k priority region arena.old) }
{
    let i = match check_add(&k, known, region, arena.len()) {
        Err(refusal) => return answer::refused_by(refusal, k),
        Ok(i) => i,
    };
    leaf_stack::internal::paint_region(arena, region);
    let id = TaskId(k.next_id as u32);
    answer::accepted(Value::Id(id), added(k, i, priority, region))
}
