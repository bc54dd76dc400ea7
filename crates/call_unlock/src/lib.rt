// Unlock of a mutex: synchronization/mutex.rs of the source.
#![tactic(auto)]

ghost use Rattle.std.specs.Prelude.{drop, ◌≡◌, true, ◌||◌, not, ℕ, ◌<◌, ◌≤◌};
ghost use Rattle.kernel.specs.Kernel.{slot, current, current_task_id, slot_of, mutex, whole};
ghost use Rattle.kernel.specs.WaitQueue.{head};
ghost use Rattle.kernel.specs.Mutex.{owns_mutex, handed_off, lock_freed};
ghost use Rattle.kernel.specs.Refusal.{number_of};
ghost use Rattle.kernel.specs.Calls.{unlock, number, effect, step, first_of, checks};

use kernel::mutex::Mutex;
use kernel::scheduler::{Answer, Kernel, Refusal};
use leaf_table::internal::current_id;

pub mod internal;

// Whether current owns it.
fn owns(k: &Kernel, m: usize) -> bool
    requires { (current k.now < 16) × (m < 4) }
    ensures { result ≡ owns_mutex k.now m }
{
    k.mutexes[m].owner == Some(current_id(k))
}

// Whether current owns the mutex, and its task any.
#[tactic(auto, using(base::proofs::Choices::taken, base::proofs::Choices::left, base::proofs::Choices::tests))]
fn check_owner(k: &Kernel, m: usize) -> Result<(), Refusal>
    requires { (current k.now < 16) × (m < 4) × (slot_of k.now (current_task_id k.now) < 16) }
    ensures { number_of result ≡ first_of (drop 2 (checks k.now (unlock m))) }
{
    if !owns(k, m) {
        return Err(Refusal::NotOwner);
    }
    let i = leaf_table::internal::slot_of(k, current_id(k)).unwrap();
    if k.tasks[i].owned_mutex_count == 0 {
        return Err(Refusal::NothingOwned);
    }
    Ok(())
}

fn check_unlock(k: &Kernel, known: bool, m: usize) -> Result<(), Refusal>
    requires { (not known || whole k.now) ≡ true }
    ensures { number_of result ≡ number k.now (unlock m) }
{
    leaf_table::internal::check_started_object(k, known, m)?;
    check_owner(k, m)
}

// To the head waiter, which is woken.
fn handed_on(k: Kernel, m: usize) -> Kernel
    requires { (m < 4) × (slot_of k (head (mutex k m).waiters) < 16 → (slot k (slot_of k (head (mutex k m).waiters))).owned_mutex_count ≤ 4) }
    ensures { result ≡ handed_off m k }
{
    let q = k.mutexes[m].waiters;
    let head = q.ids[0];
    let up = leaf_table::internal::owned_up(k, head);
    let mut next = leaf_table::internal::wake(up, head);
    next.mutexes[m] = Mutex {
        locked: true,
        owner: Some(head),
        handoff_to: Some(head),
        waiters: leaf_queue::popped(q),
    };
    next
}

fn released(mut k: Kernel, m: usize) -> Kernel
    requires { m < 4 }
    ensures { result ≡ lock_freed m k }
{
    k.mutexes[m].locked = false;
    k.mutexes[m].owner = None;
    k.mutexes[m].handoff_to = None;
    k
}

#[tactic(auto, using(base::proofs::Choices::taken, base::proofs::Choices::left, base::proofs::Choices::tests, crate::proofs::Laws::down_owned), unfolding(kernel::specs::Calls::effect, kernel::specs::Mutex::unlock))]
fn unlocked(k: Kernel, m: usize) -> Kernel
    requires { (current k < 16) × (m < 4) × ((i : ℕ) → i < 16 → (slot k i).occupied ≡ true → (slot k i).owned_mutex_count ≤ 4) }
    ensures { result ≡ effect k (unlock m) }
{
    let down = leaf_table::internal::owned_down(k, current_id(&k));
    if k.mutexes[m].waiters.len == 0 {
        return released(down, m);
    }
    handed_on(down, m)
}

// Handed on to the head waiter, yes; or unlocked, no. Refused: 1, 20, 2, 14 and 15.
pub fn unlock(k: Kernel, m: usize) -> Answer
    ensures { result ≡ step k (unlock m) }
{
    internal::unlock(k, false, m)
}
