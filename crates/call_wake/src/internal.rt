// For a caller that may know already that the kernel is whole.
ghost use Rattle.std.specs.Prelude.{◌≡◌, true, ◌||◌, not};
ghost use Rattle.kernel.specs.Kernel.{whole};
ghost use Rattle.kernel.specs.Calls.{wake, step};

use kernel::control::TaskId;
use kernel::scheduler::{Answer, Kernel};
use leaf_table::internal::answer;

#[tactic(auto, using(kernel::proofs::Step::step_refused, kernel::proofs::Step::step_accepted, leaf_table::proofs::Laws::slot_tells, leaf_table::proofs::Laws::slot_wakes), unfolding(kernel::specs::Calls::number, kernel::specs::Calls::value, kernel::specs::Calls::effect))]
pub fn wake_task(k: Kernel, known: bool, id: TaskId) -> Answer
    requires { (not known || whole k) ≡ true }
    ensures { result ≡ step k (wake id) }
{
    if let Err(refusal) = leaf_whole::internal::check(&k, known) {
        return answer::refused_by(refusal, k);
    }
    answer::woken(k, leaf_table::internal::blocked_slot(&k, id))
}
