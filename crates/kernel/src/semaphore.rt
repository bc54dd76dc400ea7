// synchronization/semaphore.rs of the source.
ghost use Rattle.std.specs.Prelude.{◌≡◌};
ghost use Rattle.kernel.specs.Kernel.{new_semaphore};

use crate::wait_queue::WaitQueue;

#[derive(Clone, Copy)]
pub struct Semaphore {
    pub count: u32,
    pub waiters: WaitQueue,
}

impl Semaphore {
    pub fn new() -> Self
        ensures { result ≡ new_semaphore }
    {
        Semaphore {
            count: 0,
            waiters: WaitQueue::new(),
        }
    }
}
