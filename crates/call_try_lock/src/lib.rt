// Try lock of a mutex: synchronization/mutex.rs of the source.
#![tactic(auto)]

ghost use Rattle.std.specs.Prelude.{◌≡◌, ◌<◌, ◌≤◌};
ghost use Rattle.kernel.specs.Kernel.{slot, current, current_task_id, slot_of};
ghost use Rattle.kernel.specs.Calls.{try_lock, effect, step};

use kernel::scheduler::{Answer, Kernel};

pub mod internal;

#[tactic(auto, using(base::proofs::Choices::taken, base::proofs::Choices::left, base::proofs::Choices::tests), unfolding(kernel::specs::Calls::effect, kernel::specs::Mutex::try_lock))]
fn tried(k: Kernel, m: usize) -> Kernel
    requires { (current k < 16) × (m < 4) × (slot_of k (current_task_id k) < 16 → (slot k (slot_of k (current_task_id k))).owned_mutex_count ≤ 4) }
    ensures { result ≡ effect k (try_lock m) }
{
    if k.mutexes[m].locked {
        return k;
    }
    call_lock::internal::acquired(k, m, None)
}

// Refused: 1, 20 and 2.
pub fn try_lock(k: Kernel, m: usize) -> Answer
    ensures { result ≡ step k (try_lock m) }
{
    internal::try_lock(k, false, m)
}
