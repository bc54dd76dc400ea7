// synchronization/mutex.rs of the source.
ghost use Rattle.std.specs.Prelude.{◌≡◌};
ghost use Rattle.kernel.specs.Kernel.{new_mutex};

use crate::control::TaskId;
use crate::wait_queue::WaitQueue;

#[derive(Clone, Copy)]
pub struct Mutex {
    pub locked: bool,
    pub owner: Option<TaskId>,
    pub handoff_to: Option<TaskId>,
    pub waiters: WaitQueue,
}

impl Mutex {
    pub fn new() -> Self
        ensures { result ≡ new_mutex }
    {
        Mutex {
            locked: false,
            owner: None,
            handoff_to: None,
            waiters: WaitQueue::new(),
        }
    }
}
