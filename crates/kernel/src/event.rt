// synchronization/event.rs of the source.
ghost use Rattle.std.specs.Prelude.{◌≡◌};
ghost use Rattle.kernel.specs.Kernel.{new_event};

use crate::wait_queue::WaitQueue;

#[derive(Clone, Copy)]
pub struct Event {
    pub signaled: bool,
    pub waiters: WaitQueue,
}

impl Event {
    pub fn new() -> Self
        ensures { result ≡ new_event }
    {
        Event {
            signaled: false,
            waiters: WaitQueue::new(),
        }
    }
}
