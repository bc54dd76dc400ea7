// For a caller that may know already that the kernel is whole.
ghost use Rattle.std.specs.Prelude.{◌≡◌, true, ◌||◌, not};
ghost use Rattle.kernel.specs.Kernel.{whole};
ghost use Rattle.kernel.specs.Calls.{switch, step};

use crate::{check_switch, switched};
use kernel::scheduler::{Answer, Kernel};
use leaf_table::internal::answer;

#[tactic(auto, using(kernel::proofs::Step::step_accepted), unfolding(kernel::specs::Calls::value, kernel::specs::Calls::effect))]
pub fn switch(k: Kernel, known: bool, sp: u32, arena: &[u32]) -> Answer
    requires { (not known || whole k) ≡ true }
    ensures { result ≡ step k (switch arena.now sp) }
{
    if let Err(refusal) = check_switch(&k, known, sp, arena) {
        return answer::refused_by(refusal, k);
    }
    switched(k, sp)
}
