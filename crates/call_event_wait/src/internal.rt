// For a caller that may know already that the kernel is whole.
ghost use Rattle.std.specs.Prelude.{◌≡◌, true, ◌||◌, not};
ghost use Rattle.kernel.specs.Kernel.{whole};
ghost use Rattle.kernel.specs.Calls.{event_wait, event_wait_within, step};

use crate::{check_wait, check_wait_within, waited, waited_within};
use kernel::scheduler::{Answer, Kernel, Value};
use leaf_table::internal::answer;

pub fn wait(k: Kernel, known: bool, e: usize) -> Answer
    requires { (not known || whole k) ≡ true }
    ensures { result ≡ step k (event_wait e) }
{
    if let Err(refusal) = check_wait(&k, known, e) {
        return answer::refused_by(refusal, k);
    }
    let got = k.events[e].signaled;
    answer::accepted(Value::YesNo(got), waited(k, e))
}

pub fn wait_within(k: Kernel, known: bool, e: usize, ticks: u64) -> Answer
    requires { (not known || whole k) ≡ true }
    ensures { result ≡ step k (event_wait_within e ticks) }
{
    if let Err(refusal) = check_wait_within(&k, known, e, ticks) {
        return answer::refused_by(refusal, k);
    }
    let got = k.events[e].signaled;
    answer::accepted(Value::YesNo(got), waited_within(k, e, ticks))
}
