// Lock of a mutex: synchronization/mutex.rs of the source.
#![tactic(auto)]

ghost use Rattle.std.specs.Prelude.{drop, ◌≡◌, true, ◌||◌, not, ◌&&◌, ◌<◌, ◌≤◌};
ghost use Rattle.kernel.specs.Kernel.{slot, current, current_task_id, slot_of, whole};
ghost use Rattle.kernel.specs.Mutex.{owns_mutex, is_handed, handoff_done, blocked_on_mutex, lock_answer};
ghost use Rattle.kernel.specs.Refusal.{number_of};
ghost use Rattle.kernel.specs.Calls.{lock, number, effect, step, first_of, checks};

use kernel::control::TaskState;
use kernel::scheduler::{Answer, Kernel, Refusal};
use leaf_table::internal::current_id;

pub mod internal;

// Whether current owns it.
fn owns(k: &Kernel, m: usize) -> bool
    requires { (current k.now < 16) × (m < 4) }
    ensures { result ≡ owns_mutex k.now m }
{
    k.mutexes[m].owner == Some(current_id(k))
}

// Whether it was handed to current.
fn is_handed(k: &Kernel, m: usize) -> bool
    requires { (current k.now < 16) × (m < 4) }
    ensures { result ≡ is_handed k.now m }
{
    k.mutexes[m].handoff_to == Some(current_id(k))
}

// Locked by current, and not handed to it; or full: it would block, eight are queued and current is not among them.
#[tactic(auto, using(base::proofs::Choices::taken, base::proofs::Choices::left, base::proofs::Choices::tests))]
fn check_owner(k: &Kernel, m: usize) -> Result<(), Refusal>
    requires { (current k.now < 16) × (m < 4) }
    ensures { number_of result ≡ first_of (drop 2 (checks k.now (lock m))) }
{
    let x = k.mutexes[m];
    let owns = owns(k, m);
    if x.locked & owns & !is_handed(k, m) {
        return Err(Refusal::AlreadyOwned);
    }
    if x.locked & !owns & leaf_queue::no_room(x.waiters, current_id(k)) {
        return Err(Refusal::QueueFull);
    }
    Ok(())
}

fn check_lock(k: &Kernel, known: bool, m: usize) -> Result<(), Refusal>
    requires { (not known || whole k.now) ≡ true }
    ensures { number_of result ≡ number k.now (lock m) }
{
    leaf_table::internal::check_started_object(k, known, m)?;
    check_owner(k, m)
}

// Handed to current before: the mark is cleared.
fn handoff_done(mut k: Kernel, m: usize) -> Kernel
    requires { m < 4 }
    ensures { result ≡ handoff_done m k }
{
    k.mutexes[m].handoff_to = None;
    k
}

// Another's: current waits.
fn blocked(mut k: Kernel, m: usize) -> Kernel
    requires { (current k < 16) × (m < 4) }
    ensures { result ≡ blocked_on_mutex m k }
{
    let id = current_id(&k);
    k.mutexes[m].waiters = leaf_queue::queued(k.mutexes[m].waiters, id);
    leaf_table::internal::set_status(k, TaskState::Blocked)
}

#[tactic(auto, using(base::proofs::Choices::taken, base::proofs::Choices::left, base::proofs::Choices::tests), unfolding(kernel::specs::Calls::effect, kernel::specs::Mutex::lock))]
fn locked(k: Kernel, m: usize) -> Kernel
    requires { (current k < 16) × (m < 4) × (slot_of k (current_task_id k) < 16 → (slot k (slot_of k (current_task_id k))).owned_mutex_count ≤ 4) }
    ensures { result ≡ effect k (lock m) }
{
    if !k.mutexes[m].locked {
        return internal::acquired(k, m, k.mutexes[m].handoff_to);
    }
    if owns(&k, m) & is_handed(&k, m) {
        return handoff_done(k, m);
    }
    blocked(k, m)
}

#[tactic(auto, unfolding(kernel::specs::Mutex::lock_answer))]
fn lock_got(k: &Kernel, m: usize) -> bool
    requires { (current k.now < 16) × (m < 4) }
    ensures { result ≡ lock_answer m k.now }
{
    !k.mutexes[m].locked | (owns(k, m) & is_handed(k, m))
}

// Current's now, or current waits. Refused: 1, 20, 2, 13 and 12.
pub fn lock(k: Kernel, m: usize) -> Answer
    ensures { result ≡ step k (lock m) }
{
    internal::lock(k, false, m)
}
