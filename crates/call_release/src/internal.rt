// For a caller that may know already that the kernel is whole.
ghost use Rattle.std.specs.Prelude.{◌≡◌, true, ◌||◌, not};
ghost use Rattle.kernel.specs.Kernel.{whole};
ghost use Rattle.kernel.specs.Calls.{release, step};

use crate::{check_release, released};
use kernel::scheduler::{Answer, Kernel};
use leaf_table::internal::answer;

pub fn release(k: Kernel, known: bool, s: usize) -> Answer
    requires { (not known || whole k) ≡ true }
    ensures { result ≡ step k (release s) }
{
    match check_release(&k, known, s) {
        Err(refusal) => answer::refused_by(refusal, k),
        Ok(()) => released(k, s),
    }
}
