// The queue under mutex, semaphore and event: synchronization/wait_queue.rs of the source.
ghost use Rattle.std.specs.Prelude.{◌≡◌};
ghost use Rattle.kernel.specs.WaitQueue.{empty_queue};

use crate::control::TaskId;

// The first `len` ids wait, the oldest first.
#[derive(Clone, Copy)]
pub struct WaitQueue {
    pub ids: [TaskId; WaitQueue::MAX_WAITERS],
    pub len: usize,
}

impl WaitQueue {
    pub const MAX_WAITERS: usize = 8;

    pub fn new() -> Self
        ensures { result ≡ empty_queue }
    {
        WaitQueue {
            ids: [TaskId(0); WaitQueue::MAX_WAITERS],
            len: 0,
        }
    }
}
