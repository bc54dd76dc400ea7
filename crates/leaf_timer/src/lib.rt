// timer.rs of the source.
#![tactic(auto)]

ghost use Rattle.std.specs.Prelude.{◌≡◌};
ghost use Rattle.kernel.specs.Timer.{ms_to_ticks};

// Rounded up, so that no sleep is shorter than asked for.
#[tactic(auto, using(base::proofs::Choices::taken, base::proofs::Choices::left, base::proofs::Choices::tests), unfolding(kernel::specs::Timer::ms_to_ticks))]
pub fn ms_to_ticks(ms: u32, hz: u32) -> u64
    ensures { result ≡ ms_to_ticks ms hz }
{
    if ms == 0 {
        return 0;
    }
    if hz == 0 {
        return 1;
    }
    (ms as u64 * hz as u64).div_ceil(1000)
}
