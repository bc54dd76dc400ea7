// `wake_one` of synchronization/wait_queue.rs of the source, which goes on where the head was not woken (02, W-201).
ghost use Rattle.std.specs.Prelude.{◌≡◌};
ghost use Rattle.leaf_wake.specs.Woken.{WakesOne};

use kernel::scheduler::Kernel;
use kernel::wait_queue::WaitQueue;

// What is left of a queue, and the slot of the task to be woken.
#[derive(Clone, Copy)]
pub struct Woken {
    pub waiters: WaitQueue,
    pub slot: Option<usize>,
}

// Heads are dropped until one is Blocked or the queue is empty. The kernel is only read: the caller makes the slot Ready.
pub fn wake_one(k: &Kernel, q: WaitQueue) -> Woken
    ensures { WakesOne result q k.now }
{
    let mut waiters = q;
    for _ in 0..q.len {
        let id = waiters.ids[0];
        waiters = leaf_queue::popped(waiters);
        let slot = leaf_table::internal::blocked_slot(k, id);
        if slot.is_some() {
            return Woken { waiters, slot };
        }
    }
    Woken {
        waiters,
        slot: None,
    }
}
