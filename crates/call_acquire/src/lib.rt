// Acquire and try acquire of a semaphore: synchronization/semaphore.rs of the source.
#![tactic(auto)]

ghost use Rattle.std.specs.Prelude.{drop, ◌≡◌, true, ◌||◌, not, ◌<◌};
ghost use Rattle.kernel.specs.Kernel.{current, semaphore, whole};
ghost use Rattle.kernel.specs.Semaphore.{has_permit, permit_taken, blocked_on_semaphore};
ghost use Rattle.kernel.specs.Refusal.{number_of};
ghost use Rattle.kernel.specs.Calls.{acquire, acquire_within, try_acquire, number, effect, step, first_of, checks};

use kernel::control::{LimitObject, TaskState};
use kernel::scheduler::{Answer, Kernel, Refusal};

pub mod internal;

fn has_permit(k: &Kernel, s: usize) -> bool
    requires { s < 4 }
    ensures { result ≡ has_permit s k.now }
{
    0 < k.semaphores[s].count
}

// ---- acquire

// Full: it would block, eight are queued and current is not among them.
fn check_queue(k: &Kernel, s: usize) -> Result<(), Refusal>
    requires { (current k.now < 16) × (s < 4) }
    ensures { number_of result ≡ first_of (drop 2 (checks k.now (acquire s))) }
{
    let id = leaf_table::internal::current_id(k);
    if !has_permit(k, s) & leaf_queue::no_room(k.semaphores[s].waiters, id) {
        return Err(Refusal::QueueFull);
    }
    Ok(())
}

fn check_acquire(k: &Kernel, known: bool, s: usize) -> Result<(), Refusal>
    requires { (not known || whole k.now) ≡ true }
    ensures { number_of result ≡ number k.now (acquire s) }
{
    leaf_table::internal::check_started_object(k, known, s)?;
    check_queue(k, s)
}

fn permit_taken(mut k: Kernel, s: usize) -> Kernel
    requires { (s < 4) × (0 < (semaphore k s).count) }
    ensures { result ≡ permit_taken s k }
{
    k.semaphores[s].count -= 1;
    k
}

fn blocked(mut k: Kernel, s: usize) -> Kernel
    requires { (current k < 16) × (s < 4) }
    ensures { result ≡ blocked_on_semaphore s k }
{
    let id = leaf_table::internal::current_id(&k);
    k.semaphores[s].waiters = leaf_queue::queued(k.semaphores[s].waiters, id);
    leaf_table::internal::set_status(k, TaskState::Blocked)
}

#[tactic(auto, using(base::proofs::Choices::taken, base::proofs::Choices::left, base::proofs::Choices::tests), unfolding(kernel::specs::Calls::effect, kernel::specs::Semaphore::acquire))]
fn acquired(k: Kernel, s: usize) -> Kernel
    requires { (current k < 16) × (s < 4) }
    ensures { result ≡ effect k (acquire s) }
{
    if has_permit(&k, s) {
        return permit_taken(k, s);
    }
    blocked(k, s)
}

// A permit, or current waits. Refused: 1, 20, 2 and 12.
pub fn acquire(k: Kernel, s: usize) -> Answer
    ensures { result ≡ step k (acquire s) }
{
    internal::acquire(k, false, s)
}

// ---- acquire with a limit

fn check_acquire_within(k: &Kernel, known: bool, s: usize, ticks: u64) -> Result<(), Refusal>
    requires { (not known || whole k.now) ≡ true }
    ensures { number_of result ≡ number k.now (acquire_within s ticks) }
{
    leaf_table::internal::check_started_object(k, known, s)?;
    if ticks == 0 {
        return Err(Refusal::UnfitOperand);
    }
    check_queue(k, s)
}

#[tactic(auto, using(base::proofs::Choices::taken, base::proofs::Choices::left, base::proofs::Choices::tests), unfolding(kernel::specs::Calls::effect, kernel::specs::Semaphore::acquire_within))]
fn acquired_within(k: Kernel, s: usize, ticks: u64) -> Kernel
    requires { (current k < 16) × (s < 4) }
    ensures { result ≡ effect k (acquire_within s ticks) }
{
    if has_permit(&k, s) {
        return permit_taken(k, s);
    }
    leaf_table::internal::limited(blocked(k, s), LimitObject::AtSemaphore(s as u8), ticks)
}

// As `acquire`, for so many ticks at most. Refused: 1, 20, 2, 7 a limit of 0, and 12.
pub fn acquire_within(k: Kernel, s: usize, ticks: u64) -> Answer
    ensures { result ≡ step k (acquire_within s ticks) }
{
    internal::acquire_within(k, false, s, ticks)
}

// ---- try acquire

#[tactic(auto, using(base::proofs::Choices::taken, base::proofs::Choices::left, base::proofs::Choices::tests), unfolding(kernel::specs::Calls::effect, kernel::specs::Semaphore::try_acquire))]
fn tried(k: Kernel, s: usize) -> Kernel
    requires { s < 4 }
    ensures { result ≡ effect k (try_acquire s) }
{
    if !has_permit(&k, s) {
        return k;
    }
    permit_taken(k, s)
}

pub fn try_acquire(k: Kernel, s: usize) -> Answer
    ensures { result ≡ step k (try_acquire s) }
{
    internal::try_acquire(k, false, s)
}
