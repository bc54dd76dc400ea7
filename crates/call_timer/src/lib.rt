// Milliseconds back from ticks; the way there is `ms_to_ticks` of timer.rs.
#![tactic(auto)]

ghost use Rattle.std.specs.Prelude.{◌≡◌, IfOk, ◌*◌, ◌/◌, ◌≤◌, ◌<◌};
ghost use Rattle.kernel.specs.Timer.{ms_of_ticks};
ghost use Rattle.kernel.specs.Refusal.{number_of};
ghost use Rattle.kernel.specs.Calls.{ticks_to_ms, number, step};

use kernel::scheduler::{Answer, Kernel, Refusal, Value};
use leaf_table::internal::answer;

// 1000 × that many ticks is the last product that fits 64 bits.
const MOST_TICKS: u64 = u64::MAX / 1000;

// Rounded down.
fn quotient(ticks: u64, hz: u32) -> u64
    requires { (ticks ≤ 18446744073709551) × (0 < hz) }
    ensures { result ≡ 1000 * ticks / hz }
{
    1000 * ticks / (hz as u64)
}

// Refused where the product would not fit, as since hz is a u32 the quotient is then above u32::MAX in any case, and where
// the quotient is above it.
fn check_ms(k: &Kernel, ticks: u64) -> Result<u32, Refusal>
    ensures number { number_of result ≡ number k.now (ticks_to_ms ticks) }
    ensures ms { IfOk result (λ ms. ms ≡ ms_of_ticks ticks k.now.hz) }
{
    leaf_whole::internal::check(k, false)?;
    let hz = k.hz;
    if MOST_TICKS < ticks {
        return Err(Refusal::TooManyMilliseconds);
    }
    u32::try_from(quotient(ticks, hz))
        .ok()
        .ok_or(Refusal::TooManyMilliseconds)
}

// In any state, started or not. Refused: 1 and 23.
#[tactic(auto, using(kernel::proofs::Step::step_accepted), unfolding(kernel::specs::Calls::value, kernel::specs::Calls::effect))]
pub fn ticks_to_ms(k: Kernel, ticks: u64) -> Answer
    ensures { result ≡ step k (ticks_to_ms ticks) }
{
    match check_ms(&k, ticks) {
        Err(refusal) => answer::refused_by(refusal, k),
        Ok(ms) => answer::accepted(Value::Milliseconds(ms), k),
    }
}
