// For a caller that may know already that the kernel is whole; and what try lock shares.
ghost use Rattle.std.specs.Prelude.{◌≡◌, true, ◌||◌, not, ◌<◌, ◌≤◌};
ghost use Rattle.kernel.specs.Kernel.{slot, current, current_task_id, slot_of, whole};
ghost use Rattle.kernel.specs.Mutex.{lock_taken};
ghost use Rattle.kernel.specs.Calls.{lock, step};

use crate::{check_lock, lock_got, locked};
use kernel::control::TaskId;
use kernel::mutex::Mutex;
use kernel::scheduler::{Answer, Kernel, Value};
use leaf_table::internal::{answer, current_id};

// Current's now.
pub fn acquired(k: Kernel, m: usize, handoff_to: Option<TaskId>) -> Kernel
    requires { (current k < 16) × (m < 4) × (slot_of k (current_task_id k) < 16 → (slot k (slot_of k (current_task_id k))).owned_mutex_count ≤ 4) }
    ensures { result ≡ lock_taken handoff_to m k }
{
    let id = current_id(&k);
    let mut next = leaf_table::internal::owned_up(k, id);
    next.mutexes[m] = Mutex {
        locked: true,
        owner: Some(id),
        handoff_to,
        waiters: k.mutexes[m].waiters,
    };
    next
}

#[tactic(auto, using(kernel::proofs::Step::step_accepted), unfolding(kernel::specs::Calls::value))]
pub fn lock(k: Kernel, known: bool, m: usize) -> Answer
    requires { (not known || whole k) ≡ true }
    ensures { result ≡ step k (lock m) }
{
    if let Err(refusal) = check_lock(&k, known, m) {
        return answer::refused_by(refusal, k);
    }
    answer::accepted(Value::YesNo(lock_got(&k, m)), locked(k, m))
}
