// Calls on the task of an id: wake, and the result of a system call. sched/scheduler.rs of the source.
#![tactic(auto)]

ghost use Rattle.std.specs.Prelude.{◌≡◌, ◌<◌, IfOk, ℤ};
ghost use Rattle.kernel.specs.Kernel.{slot_of};
ghost use Rattle.kernel.specs.Refusal.{number_of};
ghost use Rattle.kernel.specs.Calls;
ghost use Rattle.kernel.specs.Calls.{wake, number, step};

use kernel::control::TaskId;
use kernel::scheduler::{Answer, Kernel, Refusal, Value};
use leaf_table::internal::answer;

pub mod internal;

// Blocked becomes Ready, yes; anything else is accepted unchanged, no. Refused: 1.
pub fn wake_task(k: Kernel, id: TaskId) -> Answer
    ensures { result ≡ step k (wake id) }
{
    internal::wake_task(k, false, id)
}

fn check_result(k: &Kernel, id: TaskId) -> Result<usize, Refusal>
    ensures number { (r : ℤ) → number_of result ≡ number k.now (Calls.result id r) }
    ensures slot { IfOk result (λ i. i ≡ slot_of k.now id) }
    ensures below { IfOk result (λ i. i < 16) }
{
    leaf_whole::internal::check(k, false)?;
    leaf_table::internal::slot_of(k, id).ok_or(Refusal::UnknownId)
}

pub fn set_syscall_result(mut k: Kernel, id: TaskId, value: i32) -> Answer
    ensures { result ≡ step k (Calls.result id value) }
{
    match check_result(&k, id) {
        Err(refusal) => answer::refused_by(refusal, k),
        Ok(i) => {
            k.tasks[i].result = value;
            answer::accepted(Value::Nothing, k)
        },
    }
}
