// For a caller that may know already that the kernel is whole.
#![tactic(auto, using(kernel::proofs::Step::step_refused, kernel::proofs::Step::step_accepted), unfolding(kernel::specs::Calls::number, kernel::specs::Calls::value, kernel::specs::Calls::effect))]

ghost use Rattle.std.specs.Prelude.{◌≡◌, true, ◌||◌, not};
ghost use Rattle.kernel.specs.Kernel.{whole};
ghost use Rattle.kernel.specs.Calls.{status, block, sleep, step};

use crate::{check_status, put_to_sleep};
use kernel::control::TaskState;
use kernel::scheduler::{Answer, Kernel, Value};
use leaf_table::internal::answer;

pub fn set_current_task_status(k: Kernel, known: bool, state: u8) -> Answer
    requires { (not known || whole k) ≡ true }
    ensures { result ≡ step k (status state) }
{
    match check_status(&k, known, state) {
        Err(refusal) => answer::refused_by(refusal, k),
        Ok(state) => {
            answer::accepted(Value::Nothing, leaf_table::internal::set_status(k, state))
        },
    }
}

pub fn block_current_task(k: Kernel, known: bool) -> Answer
    requires { (not known || whole k) ≡ true }
    ensures { result ≡ step k block }
{
    if let Err(refusal) = leaf_table::internal::check_started(&k, known) {
        return answer::refused_by(refusal, k);
    }
    answer::accepted(
        Value::Nothing,
        leaf_table::internal::set_status(k, TaskState::Blocked),
    )
}

pub fn current_task_sleep_ticks(k: Kernel, known: bool, ticks: u64) -> Answer
    requires { (not known || whole k) ≡ true }
    ensures { result ≡ step k (sleep ticks) }
{
    if let Err(refusal) = leaf_table::internal::check_started(&k, known) {
        return answer::refused_by(refusal, k);
    }
    answer::accepted(Value::Nothing, put_to_sleep(k, ticks))
}
