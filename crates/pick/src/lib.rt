// The choice of the next task over bytes, which crate pick_c exports for C. Module `internal` has the same over the table.
#![tactic(auto)]

ghost use Rattle.std.specs.Prelude.{◌≡◌, ℕ, ◌<◌, eqb, ltb, length, get_or, unwrap_or};
ghost use Rattle.base.specs.Below.{any_below};
ghost use Rattle.kernel.specs.Scheduler.{slot_after, pick};
ghost use Rattle.kernel.specs.Calls.{pick_bytes};
ghost use Rattle.pick.specs.Keys.{IsKey, IsLeast, first_from};

use kernel::scheduler::Kernel;
use std::array;

pub mod internal;

// The key of a slot that is not Ready; a number is below it.
const NOT_READY: u16 = 256;

// The state byte of an empty slot, after the states' numbers.
const EMPTY: u8 = 6;

// What stands for refusal 22.
const REFUSED: u8 = 255;

fn key(ready: bool, number: u8) -> u16
    ensures { IsKey ready number result }
{
    if ready { number as u16 } else { NOT_READY }
}

fn least(keys: [u16; Kernel::MAX_TASKS]) -> u16
    ensures { IsLeast keys 16 result }
{
    let mut best = NOT_READY;
    for i in 0..Kernel::MAX_TASKS {
        best = best.min(keys[i]);
    }
    best
}

// The slot n places after current + 1, slot 0 following slot 15: by comparison and subtraction, since the pick runs inside the switch interrupt.
fn slot_after(current: usize, n: usize) -> usize
    requires { (current < 16) × (n < 16) }
    ensures { result ≡ slot_after current n }
{
    let place = current + 1 + n;
    if place < Kernel::MAX_TASKS {
        place
    } else {
        place - Kernel::MAX_TASKS
    }
}

// The first slot from current + 1 cyclically that has that key; 0 where none has.
fn first_from(keys: [u16; Kernel::MAX_TASKS], current: usize, best: u16) -> usize
    requires { current < 16 }
    ensures { result ≡ first_from keys current best }
{
    for n in 0..Kernel::MAX_TASKS {
        let at = slot_after(current, n);
        if keys[at] == best {
            return at;
        }
    }
    0
}

fn pick_key(keys: [u16; Kernel::MAX_TASKS], current: usize) -> usize
    requires { current < 16 }
    ensures { result ≡ pick (λ i. ltb (get_or keys i 0) 256) (λ i. get_or keys i 0) current }
{
    let best = least(keys);
    if NOT_READY <= best {
        return 0;
    }
    first_from(keys, current, best)
}

fn byte_keys(states: &[u8], priorities: &[u8]) -> [u16; Kernel::MAX_TASKS]
    requires { (length states.now ≡ 16) × (length priorities.now ≡ 16) }
    ensures { (i : ℕ) → i < 16 → IsKey (eqb (get_or states.now i 0) 0) (get_or priorities.now i 0) (get_or result i 0) }
{
    array::from_fn(|i| key(states[i] == 0, priorities[i]))
}

// Whether one of the sixteen is no state's number, nor that of an empty slot.
fn any_unknown(states: &[u8]) -> bool
    requires { length states.now ≡ 16 }
    ensures { result ≡ any_below (λ i. ltb 6 (get_or states.now i 0)) 16 }
{
    // Without a way out early, so that all sixteen are looked at together.
    states.iter().fold(false, |found, s| found | (EMPTY < *s))
}

// The slot picked; none for refusal 22.
#[tactic(auto, using(base::proofs::Choices::taken, base::proofs::Choices::left, base::proofs::Choices::tests), unfolding(kernel::specs::Calls::pick_bytes))]
fn picked(states: &[u8], priorities: &[u8], current: u8) -> Option<u8>
    ensures { unwrap_or result 255 ≡ pick_bytes states.now priorities.now current }
{
    if states.len() != Kernel::MAX_TASKS || priorities.len() != Kernel::MAX_TASKS {
        return None;
    }
    if any_unknown(states) || Kernel::MAX_TASKS <= current as usize {
        return None;
    }
    let keys = byte_keys(states, priorities);
    Some(pick_key(keys, current as usize) as u8)
}

// The pick over 16 state bytes and 16 priority bytes; 255 stands for refusal 22.
pub fn tibsulan_pick(states: &[u8], priorities: &[u8], current: u8) -> u8
    ensures { result ≡ pick_bytes states.now priorities.now current }
{
    picked(states, priorities, current).unwrap_or(REFUSED)
}
