// For a caller that may know already that the kernel is whole.
ghost use Rattle.std.specs.Prelude.{◌≡◌, true, ◌||◌, not};
ghost use Rattle.kernel.specs.Kernel.{whole};
ghost use Rattle.kernel.specs.Calls.{reap, reap_one, step};

use crate::{check_reap, reapable, reaped};
use kernel::control::TaskId;
use kernel::scheduler::{Answer, Kernel, Value};
use leaf_table::internal::answer;

#[tactic(auto, using(kernel::proofs::Step::step_refused, kernel::proofs::Step::step_accepted), unfolding(kernel::specs::Calls::value, kernel::specs::Calls::effect))]
pub fn reap_task(k: Kernel, known: bool, id: TaskId) -> Answer
    requires { (not known || whole k) ≡ true }
    ensures { result ≡ step k (reap id) }
{
    match check_reap(&k, known, id) {
        Err(refusal) => answer::refused_by(refusal, k),
        Ok(i) => reaped(k, i),
    }
}

pub fn reap_one(k: Kernel, known: bool) -> Answer
    requires { (not known || whole k) ≡ true }
    ensures { result ≡ step k reap_one }
{
    if let Err(refusal) = leaf_whole::internal::check(&k, known) {
        return answer::refused_by(refusal, k);
    }
    match reapable(k) {
        None => answer::accepted(Value::NoRegion, k),
        Some(i) => reaped(k, i),
    }
}
