// For a caller that may know already that the kernel is whole.
ghost use Rattle.std.specs.Prelude.{◌≡◌, true, ◌||◌, not};
ghost use Rattle.kernel.specs.Kernel.{whole};
ghost use Rattle.kernel.specs.Calls.{exit, step};

use crate::{check_exit, exited};
use kernel::scheduler::{Answer, Kernel, Value};
use leaf_table::internal::answer;

#[tactic(auto, using(kernel::proofs::Step::step_refused, kernel::proofs::Step::step_accepted), unfolding(kernel::specs::Calls::value))]
pub fn exit_current_task(k: Kernel, known: bool) -> Answer
    requires { (not known || whole k) ≡ true }
    ensures { result ≡ step k exit }
{
    if let Err(refusal) = check_exit(&k, known) {
        return answer::refused_by(refusal, k);
    }
    answer::accepted(Value::Nothing, exited(k))
}
