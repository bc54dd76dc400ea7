// For a caller that may know already that the kernel is whole.
ghost use Rattle.std.specs.Prelude.{◌≡◌, true, ◌||◌, not};
ghost use Rattle.kernel.specs.Kernel.{whole};
ghost use Rattle.kernel.specs.Calls.{acquire, acquire_within, try_acquire, step};

use crate::{acquired, acquired_within, check_acquire, check_acquire_within, has_permit, tried};
use kernel::scheduler::{Answer, Kernel, Value};
use leaf_table::internal::answer;

pub fn acquire(k: Kernel, known: bool, s: usize) -> Answer
    requires { (not known || whole k) ≡ true }
    ensures { result ≡ step k (acquire s) }
{
    if let Err(refusal) = check_acquire(&k, known, s) {
        return answer::refused_by(refusal, k);
    }
    let got = has_permit(&k, s);
    answer::accepted(Value::YesNo(got), acquired(k, s))
}

pub fn acquire_within(k: Kernel, known: bool, s: usize, ticks: u64) -> Answer
    requires { (not known || whole k) ≡ true }
    ensures { result ≡ step k (acquire_within s ticks) }
{
    if let Err(refusal) = check_acquire_within(&k, known, s, ticks) {
        return answer::refused_by(refusal, k);
    }
    let got = has_permit(&k, s);
    answer::accepted(Value::YesNo(got), acquired_within(k, s, ticks))
}

pub fn try_acquire(k: Kernel, known: bool, s: usize) -> Answer
    requires { (not known || whole k) ≡ true }
    ensures { result ≡ step k (try_acquire s) }
{
    if let Err(refusal) = leaf_table::internal::check_object(&k, known, s) {
        return answer::refused_by(refusal, k);
    }
    let got = has_permit(&k, s);
    answer::accepted(Value::YesNo(got), tried(k, s))
}
