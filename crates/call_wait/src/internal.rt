// For a caller that may know already that the kernel is whole.
ghost use Rattle.std.specs.Prelude.{◌≡◌, true, ◌||◌, not};
ghost use Rattle.kernel.specs.Kernel.{whole};
ghost use Rattle.kernel.specs.Calls.{wait, step};

use crate::{check_wait, waited};
use kernel::control::TaskId;
use kernel::scheduler::{Answer, Kernel, Value};
use leaf_table::internal::answer;

#[tactic(auto, using(kernel::proofs::Step::step_refused, kernel::proofs::Step::step_accepted), unfolding(kernel::specs::Calls::value))]
pub fn wait_task(k: Kernel, known: bool, id: TaskId) -> Answer
    requires { (not known || whole k) ≡ true }
    ensures { result ≡ step k (wait id) }
{
    match check_wait(&k, known, id) {
        Err(refusal) => answer::refused_by(refusal, k),
        Ok(i) => answer::accepted(Value::Nothing, waited(k, i, id)),
    }
}
