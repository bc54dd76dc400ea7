// The pick over the task table: `next_task` of sched/scheduler.rs. No calls: they ask of their caller that current is a slot. Where no mutex has a queue, which the caller
// looks up, ranks are the own numbers, and `next_by_number` is enough.
ghost use Rattle.std.specs.Prelude.{◌≡◌, ℕ, ◌<◌, get_or};
ghost use Rattle.kernel.specs.declared.control.TaskState.TheVariants.{Ready};
ghost use Rattle.kernel.specs.Control.{holds_task};
ghost use Rattle.kernel.specs.Kernel.{current};
ghost use Rattle.kernel.specs.Rank.{priority_of};
ghost use Rattle.kernel.specs.Scheduler.{pick, is_ready, next_task};
ghost use Rattle.pick.specs.Keys.{IsKey};
ghost use Rattle.pick.specs.Ranked.{Ranked};

use crate::{key, pick_key};
use kernel::control::{SlotIndex, TaskControl};
use kernel::scheduler::Kernel;
use std::array;

fn task_key(t: TaskControl) -> u16
    ensures { IsKey (holds_task Ready t) t.priority.0 result }
{
    key(t.occupied & t.is_ready(), t.priority.0)
}

fn task_keys(k: Kernel) -> [u16; Kernel::MAX_TASKS]
    ensures { (i : ℕ) → i < 16 → IsKey (is_ready k i) (priority_of k i) (get_or result i 0) }
{
    array::from_fn(|i| task_key(k.tasks[i]))
}

// The Ready slot of the smallest own number, the first of them from current + 1 cyclically; 0 where none is Ready.
pub fn next_by_number(k: Kernel) -> SlotIndex
    requires { current k < 16 }
    ensures { (result.0 ≡ pick (is_ready k) (priority_of k) (current k)) × (result.0 < 16) }
{
    let keys = task_keys(k);
    let current = k.current.0;
    SlotIndex(pick_key(keys, current))
}

// Each task with its rank for its own number.
fn ranked(k: Kernel) -> Kernel
    ensures { Ranked k result 16 }
{
    let ranks = leaf_rank::internal::ranks(k);
    let mut out = k;
    for i in 0..Kernel::MAX_TASKS {
        out.tasks[i].priority.0 = ranks[i];
    }
    out
}

// The Ready slot of the smallest rank, the first of them from current + 1 cyclically; 0 where none is Ready.
pub fn next_task(k: Kernel) -> SlotIndex
    requires { k.current.0 < 16 }
    ensures { (result.0 ≡ next_task k) × (result.0 < 16) }
{
    next_by_number(ranked(k))
}
