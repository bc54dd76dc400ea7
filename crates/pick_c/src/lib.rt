// The pick over bytes, for C (include/tibsulan.h).
#![tactic(auto)]

ghost use Rattle.std.specs.Prelude.{◌≡◌};
ghost use Rattle.kernel.specs.Calls.{pick_bytes};

// The pick over 16 state bytes and 16 priority bytes; 255 stands for refusal 22.
#[unsafe(no_mangle)]
pub extern "C" fn tibsulan_pick(states: &[u8], priorities: &[u8], current: u8) -> u8
    ensures { result ≡ pick_bytes states.now priorities.now current }
{
    pick::tibsulan_pick(states, priorities, current)
}
