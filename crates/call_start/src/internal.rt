// For a caller that may know already that the kernel is whole.
ghost use Rattle.std.specs.Prelude.{◌≡◌, true, ◌||◌, not};
ghost use Rattle.kernel.specs.Calls.{start, step};
ghost use Rattle.kernel.specs.Kernel.{whole};

use crate::{check_start, started};
use kernel::scheduler::{Answer, Kernel};
use leaf_table::internal::answer;

#[tactic(auto, using(kernel::proofs::Step::step_accepted))]
pub fn start(k: Kernel, known: bool) -> Answer
    requires { (not known || whole k) ≡ true }
    ensures { result ≡ step k start }
{
    if let Err(refusal) = check_start(&k, known) {
        return answer::refused_by(refusal, k);
    }
    started(k)
}
