// Reap and reap one: sched/scheduler.rs of the source.
#![tactic(auto)]

ghost use Rattle.std.specs.Prelude.{◌≡◌, true, ◌||◌, IfSome, IfOk, unwrap_or, not, ◌&&◌, ◌<◌, ◌≤◌, eqb, leb};
ghost use Rattle.kernel.specs.declared.control.TaskState.TheVariants.{Terminated};
ghost use Rattle.kernel.specs.declared.scheduler.Value.TheVariants.{Region};
ghost use Rattle.kernel.specs.Control.{holds_task};
ghost use Rattle.kernel.specs.Kernel.{slot, slot_of, current, charge_sum, whole};
ghost use Rattle.kernel.specs.Scheduler.{emptied, reapable_slot};
ghost use Rattle.kernel.specs.Refusal.{number_of};
ghost use Rattle.kernel.specs.Calls.{reap, reap_one, number, accepted, step};

use kernel::control::{TaskControl, TaskId};
use kernel::scheduler::{Answer, Kernel, Refusal, Value};
use leaf_table::internal::answer;

pub mod internal;

fn emptied(mut k: Kernel, i: usize) -> Kernel
    requires { (i < 16) × (1 ≤ k.task_count) × (charge_sum k ≤ k.tick_count) }
    ensures { result ≡ emptied i k }
{
    k.tasks[i] = TaskControl::empty();
    k.retired_charge += k.charges[i];
    k.charges[i] = 0;
    k.task_count -= 1;
    k
}

fn reaped(k: Kernel, i: usize) -> Answer
    requires { (i < 16) × (1 ≤ k.task_count) × (charge_sum k ≤ k.tick_count) }
    ensures { result ≡ accepted (Region (slot k i).stack) (emptied i k) }
{
    answer::accepted(Value::Region(k.tasks[i].stack), emptied(k, i))
}

// The slot of the task, which is not slot 0 nor current, and Terminated.
fn check_reap(k: &Kernel, known: bool, id: TaskId) -> Result<usize, Refusal>
    requires { (not known || whole k.now) ≡ true }
    ensures number { number_of result ≡ number k.now (reap id) }
    ensures slot { IfOk result (λ i. i ≡ slot_of k.now id) }
    ensures below { IfOk result (λ i. i < 16) }
{
    leaf_whole::internal::check(k, known)?;
    let i = leaf_table::internal::slot_of(k, id).ok_or(Refusal::UnknownId)?;
    if (i == 0) | (i == k.current.0) | !k.tasks[i].is_terminated() {
        return Err(Refusal::TaskInUse);
    }
    Ok(i)
}

pub fn reap_task(k: Kernel, id: TaskId) -> Answer
    ensures { result ≡ step k (reap id) }
{
    internal::reap_task(k, false, id)
}

#[tactic(auto, unfolding(kernel::specs::Control::holds_task))]
fn is_reapable(t: TaskControl, i: usize, current: usize) -> bool
    ensures { result ≡ (leb 1 i && not (eqb i current) && holds_task Terminated t) }
{
    (1 <= i) & !(i == current) & (t.occupied & t.is_terminated())
}

// The lowest Terminated slot from 1, never current.
fn reapable(k: Kernel) -> Option<usize>
    ensures place { unwrap_or result 16 ≡ reapable_slot k }
    ensures below { IfSome result (λ i. i < 16) }
{
    (0..Kernel::MAX_TASKS).find(|i| is_reapable(k.tasks[*i], *i, k.current.0))
}

pub fn reap_one(k: Kernel) -> Answer
    ensures { result ≡ step k reap_one }
{
    internal::reap_one(k, false)
}
