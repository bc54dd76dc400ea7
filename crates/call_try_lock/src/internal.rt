// For a caller that may know already that the kernel is whole.
ghost use Rattle.std.specs.Prelude.{◌≡◌, true, ◌||◌, not};
ghost use Rattle.kernel.specs.Kernel.{whole};
ghost use Rattle.kernel.specs.Calls.{try_lock, step};

use crate::tried;
use kernel::scheduler::{Answer, Kernel, Value};
use leaf_table::internal::answer;

#[tactic(auto, using(kernel::proofs::Step::step_accepted), unfolding(kernel::specs::Calls::number, kernel::specs::Calls::value))]
pub fn try_lock(k: Kernel, known: bool, m: usize) -> Answer
    requires { (not known || whole k) ≡ true }
    ensures { result ≡ step k (try_lock m) }
{
    if let Err(refusal) = leaf_table::internal::check_started_object(&k, known, m) {
        return answer::refused_by(refusal, k);
    }
    answer::accepted(Value::YesNo(!k.mutexes[m].locked), tried(k, m))
}
