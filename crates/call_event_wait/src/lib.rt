// Wait for an event: synchronization/event.rs of the source.
#![tactic(auto)]

ghost use Rattle.std.specs.Prelude.{drop, ◌≡◌, true, ◌||◌, not, ◌<◌};
ghost use Rattle.kernel.specs.Kernel.{current, whole};
ghost use Rattle.kernel.specs.Event.{signal_taken, blocked_on_event};
ghost use Rattle.kernel.specs.Refusal.{number_of};
ghost use Rattle.kernel.specs.Calls.{event_wait, event_wait_within, number, effect, step, first_of, checks};

use kernel::control::{LimitObject, TaskState};
use kernel::scheduler::{Answer, Kernel, Refusal};

pub mod internal;

// Full: it would block, eight are queued and current is not among them.
fn check_queue(k: &Kernel, e: usize) -> Result<(), Refusal>
    requires { (current k.now < 16) × (e < 4) }
    ensures { number_of result ≡ first_of (drop 2 (checks k.now (event_wait e))) }
{
    let id = leaf_table::internal::current_id(k);
    if !k.events[e].signaled & leaf_queue::no_room(k.events[e].waiters, id) {
        return Err(Refusal::QueueFull);
    }
    Ok(())
}

fn check_wait(k: &Kernel, known: bool, e: usize) -> Result<(), Refusal>
    requires { (not known || whole k.now) ≡ true }
    ensures { number_of result ≡ number k.now (event_wait e) }
{
    leaf_table::internal::check_started_object(k, known, e)?;
    check_queue(k, e)
}

fn signal_taken(mut k: Kernel, e: usize) -> Kernel
    requires { e < 4 }
    ensures { result ≡ signal_taken e k }
{
    k.events[e].signaled = false;
    k
}

fn blocked(mut k: Kernel, e: usize) -> Kernel
    requires { (current k < 16) × (e < 4) }
    ensures { result ≡ blocked_on_event e k }
{
    let id = leaf_table::internal::current_id(&k);
    k.events[e].waiters = leaf_queue::queued(k.events[e].waiters, id);
    leaf_table::internal::set_status(k, TaskState::Blocked)
}

#[tactic(auto, using(base::proofs::Choices::taken, base::proofs::Choices::left, base::proofs::Choices::tests), unfolding(kernel::specs::Calls::effect, kernel::specs::Event::event_wait))]
fn waited(k: Kernel, e: usize) -> Kernel
    requires { (current k < 16) × (e < 4) }
    ensures { result ≡ effect k (event_wait e) }
{
    if k.events[e].signaled {
        return signal_taken(k, e);
    }
    blocked(k, e)
}

// A signal, or current waits. Refused: 1, 20, 2 and 12.
pub fn wait(k: Kernel, e: usize) -> Answer
    ensures { result ≡ step k (event_wait e) }
{
    internal::wait(k, false, e)
}

// ---- with a limit

fn check_wait_within(k: &Kernel, known: bool, e: usize, ticks: u64) -> Result<(), Refusal>
    requires { (not known || whole k.now) ≡ true }
    ensures { number_of result ≡ number k.now (event_wait_within e ticks) }
{
    leaf_table::internal::check_started_object(k, known, e)?;
    if ticks == 0 {
        return Err(Refusal::UnfitOperand);
    }
    check_queue(k, e)
}

#[tactic(auto, using(base::proofs::Choices::taken, base::proofs::Choices::left, base::proofs::Choices::tests), unfolding(kernel::specs::Calls::effect, kernel::specs::Event::event_wait_within))]
fn waited_within(k: Kernel, e: usize, ticks: u64) -> Kernel
    requires { (current k < 16) × (e < 4) }
    ensures { result ≡ effect k (event_wait_within e ticks) }
{
    if k.events[e].signaled {
        return signal_taken(k, e);
    }
    leaf_table::internal::limited(blocked(k, e), LimitObject::AtEvent(e as u8), ticks)
}

// As `wait`, for so many ticks at most. Refused: 1, 20, 2, 7 a limit of 0, and 12.
pub fn wait_within(k: Kernel, e: usize, ticks: u64) -> Answer
    ensures { result ≡ step k (event_wait_within e ticks) }
{
    internal::wait_within(k, false, e, ticks)
}
