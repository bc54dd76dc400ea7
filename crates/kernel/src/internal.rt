// A constructor that asks something of its caller. No calls.
ghost use Rattle.std.specs.Prelude.{◌≡◌, ◌+◌, ◌<◌, ◌^◌};
ghost use Rattle.kernel.specs.Control.{new_task};

use crate::control::{LimitObject, Priority, StackRegion, TaskControl, TaskId, TaskState};

impl TaskControl {
    pub fn new(id: TaskId, priority: Priority, stack: StackRegion) -> Self
        requires { stack.start + stack.size < 2 ^ 32 }
        ensures { result ≡ new_task id priority stack }
    {
        TaskControl {
            occupied: true,
            state: TaskState::Ready,
            priority,
            limit_passed: false,
            limit_object: LimitObject::NoLimit,
            stack,
            id,
            time_slice: TaskControl::DEFAULT_TIME_SLICE,
            wake_tick: 0,
            limit_tick: 0,
            remaining_slice: TaskControl::DEFAULT_TIME_SLICE,
            owned_mutex_count: 0,
            waiter: None,
            sp: stack.start + stack.size,
            result: 0,
        }
    }
}
