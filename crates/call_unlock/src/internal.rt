// For a caller that may know already that the kernel is whole.
ghost use Rattle.std.specs.Prelude.{◌≡◌, true, ◌||◌, not};
ghost use Rattle.kernel.specs.Kernel.{whole};
ghost use Rattle.kernel.specs.Calls.{unlock, step};

use crate::{check_unlock, unlocked};
use kernel::scheduler::{Answer, Kernel, Value};
use leaf_table::internal::answer;

#[tactic(auto, using(kernel::proofs::Step::step_accepted), unfolding(kernel::specs::Calls::value))]
pub fn unlock(k: Kernel, known: bool, m: usize) -> Answer
    requires { (not known || whole k) ≡ true }
    ensures { result ≡ step k (unlock m) }
{
    if let Err(refusal) = check_unlock(&k, known, m) {
        return answer::refused_by(refusal, k);
    }
    answer::accepted(Value::YesNo(k.mutexes[m].waiters.len != 0), unlocked(k, m))
}
