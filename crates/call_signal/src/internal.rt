// For a caller that may know already that the kernel is whole.
ghost use Rattle.std.specs.Prelude.{◌≡◌, true, ◌||◌, not};
ghost use Rattle.kernel.specs.Calls.{signal, step};
ghost use Rattle.kernel.specs.Kernel.{whole};

use crate::signalled;
use kernel::scheduler::{Answer, Kernel};
use leaf_table::internal::answer;

pub fn signal(k: Kernel, known: bool, e: usize) -> Answer
    requires { (not known || whole k) ≡ true }
    ensures { result ≡ step k (signal e) }
{
    if let Err(refusal) = leaf_table::internal::check_object(&k, known, e) {
        return answer::refused_by(refusal, k);
    }
    signalled(k, e)
}
