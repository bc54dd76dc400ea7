// For a caller that may know already that the kernel is whole.
ghost use Rattle.std.specs.Prelude.{◌≡◌, true, ◌||◌, not};
ghost use Rattle.kernel.specs.Kernel.{whole};
ghost use Rattle.kernel.specs.Calls.{tick, step};

use crate::ticked;
use kernel::scheduler::{Answer, Kernel, Refusal};
use leaf_table::internal::answer;

pub fn update_tick(k: Kernel, known: bool) -> Answer
    requires { (not known || whole k) ≡ true }
    ensures { result ≡ step k tick }
{
    if let Err(refusal) = leaf_whole::internal::check(&k, known) {
        return answer::refused_by(refusal, k);
    }
    if k.tick_count == u64::MAX {
        return answer::refused_by(Refusal::LastTick, k);
    }
    ticked(k)
}
