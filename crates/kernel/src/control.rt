// Tasks and their slots in the table: task/control.rs of the source.
ghost use Rattle.std.specs.Prelude.{◌≡◌};
ghost use Rattle.base.specs.Choice.{if◌then◌otherwise◌};
ghost use Rattle.kernel.specs.Update.{with_state, with_waiter, with_time_slice, with_limit};
ghost use Rattle.kernel.specs.Control.{state_number, in_state, is_limit, has_limit, object_fits, limit_ended, entered, expired, blank_slot};

// A place in the table, 0 to 15; never taken for a task's id.
#[derive(Clone, Copy, PartialEq, Eq)]
pub struct SlotIndex(pub usize);

#[derive(Clone, Copy, PartialEq, Eq)]
pub struct TaskId(pub u32);

// Smaller is better.
#[derive(Clone, Copy, PartialEq, Eq)]
pub struct Priority(pub u8);

#[derive(Clone, Copy, PartialEq, Eq)]
pub enum TaskState {
    Ready,
    Running,
    Blocked,
    Sleeping,
    Suspended,
    Terminated,
}

// Start and size in bytes from the arena's start.
#[derive(Clone, Copy)]
pub struct StackRegion {
    pub start: u32,
    pub size: u32,
}

// The object of a wait that has a limit, with its number, or none.
#[derive(Clone, Copy)]
pub enum LimitObject {
    NoLimit,
    AtSemaphore(u8),
    AtEvent(u8),
}

// A slot of the table: the source's `Option<TaskControl>`, where `occupied` stands for `Some`. `sp` and `result` stand for the processor context.
// The order keeps it at 64 bytes.
#[derive(Clone, Copy)]
pub struct TaskControl {
    pub occupied: bool,
    pub state: TaskState,
    pub priority: Priority,
    // Whether the last limit to end was ended by its own tick; no if there was none yet.
    pub limit_passed: bool,
    pub limit_object: LimitObject,
    pub stack: StackRegion,
    pub id: TaskId,
    pub time_slice: u32,
    pub wake_tick: u64,
    // The tick at which the limit ends; 0 without one.
    pub limit_tick: u64,
    pub remaining_slice: u32,
    pub owned_mutex_count: u32,
    pub waiter: Option<TaskId>,
    pub sp: u32,
    pub result: i32,
}

// A record of the list call.
#[derive(Clone, Copy)]
pub struct TaskInfo {
    pub id: TaskId,
    pub state: TaskState,
    pub priority: Priority,
    pub stack_used: u32,
    pub stack_total: u32,
}

impl TaskId {
    // As `next_id` counts, which goes one past it.
    pub const LAST: u64 = u32::MAX as u64;
}

impl LimitObject {
    pub fn is_limit(self) -> bool
        ensures { result ≡ is_limit self }
    {
        match self {
            LimitObject::NoLimit => false,
            LimitObject::AtSemaphore(_) => true,
            LimitObject::AtEvent(_) => true,
        }
    }

    // Whether the object's number is below 4.
    pub fn fits(self) -> bool
        ensures { result ≡ object_fits self }
    {
        match self {
            LimitObject::NoLimit => true,
            LimitObject::AtSemaphore(s) => s < 4,
            LimitObject::AtEvent(e) => e < 4,
        }
    }
}

impl StackRegion {
    pub const MIN_SIZE: u32 = 16;

    // A word of the arena has four bytes.
    pub const WORD_SIZE: u32 = 4;
}

impl TaskState {
    pub fn number(self) -> u8
        ensures { result ≡ state_number self }
    {
        match self {
            TaskState::Ready => 0,
            TaskState::Running => 1,
            TaskState::Blocked => 2,
            TaskState::Sleeping => 3,
            TaskState::Suspended => 4,
            TaskState::Terminated => 5,
        }
    }
}

impl TaskControl {
    pub const STACK_MAGIC: u32 = 0xDEADBEEF;

    pub const STACK_GUARD_WORDS: usize = 4;

    pub const DEFAULT_TIME_SLICE: u32 = 5;

    pub const MAX_OWNED_MUTEXES: u32 = 4;

    pub fn empty() -> Self
        ensures { result ≡ blank_slot }
    {
        TaskControl {
            occupied: false,
            state: TaskState::Ready,
            priority: Priority(0),
            limit_passed: false,
            limit_object: LimitObject::NoLimit,
            stack: StackRegion { start: 0, size: 0 },
            id: TaskId(0),
            time_slice: 0,
            wake_tick: 0,
            limit_tick: 0,
            remaining_slice: 0,
            owned_mutex_count: 0,
            waiter: None,
            sp: 0,
            result: 0,
        }
    }

    pub fn is_in(self, state: TaskState) -> bool
        ensures { result ≡ in_state state self }
    {
        self.state == state
    }

    pub fn is_ready(self) -> bool
        ensures { result ≡ in_state TaskState.Ready self }
    {
        self.is_in(TaskState::Ready)
    }

    pub fn is_running(self) -> bool
        ensures { result ≡ in_state TaskState.Running self }
    {
        self.is_in(TaskState::Running)
    }

    pub fn is_blocked(self) -> bool
        ensures { result ≡ in_state TaskState.Blocked self }
    {
        self.is_in(TaskState::Blocked)
    }

    pub fn is_sleeping(self) -> bool
        ensures { result ≡ in_state TaskState.Sleeping self }
    {
        self.is_in(TaskState::Sleeping)
    }

    pub fn is_terminated(self) -> bool
        ensures { result ≡ in_state TaskState.Terminated self }
    {
        self.is_in(TaskState::Terminated)
    }

    pub fn with_time_slice(mut self, time_slice: u32) -> Self
        ensures { result ≡ with_time_slice time_slice self }
    {
        self.time_slice = time_slice;
        self.remaining_slice = time_slice;
        self
    }

    // In that state; a limit ends, by its own tick or not.
    #[tactic(auto, using(base::proofs::Choices::taken, base::proofs::Choices::left, base::proofs::Choices::tests))]
    fn ended(self, state: TaskState, own: bool) -> Self
        ensures { result ≡ limit_ended own (with_state state self) }
    {
        TaskControl {
            state,
            limit_passed: if self.limit_object.is_limit() {
                own
            } else {
                self.limit_passed
            },
            limit_object: LimitObject::NoLimit,
            limit_tick: 0,
            ..self
        }
    }

    // In that state; what enters a state ends a limit.
    pub fn entered(self, state: TaskState) -> Self
        ensures { result ≡ entered state self }
    {
        self.ended(state, false)
    }

    // Ready, its limit ended by its own tick.
    pub fn expired(self) -> Self
        ensures { result ≡ expired self }
    {
        self.ended(TaskState::Ready, true)
    }

    pub fn with_waiter(mut self, waiter: Option<TaskId>) -> Self
        ensures { result ≡ with_waiter waiter self }
    {
        self.waiter = waiter;
        self
    }

    // A limit at that object, which ends at that tick.
    pub fn with_limit(mut self, object: LimitObject, tick: u64) -> Self
        ensures { result ≡ with_limit object tick self }
    {
        self.limit_object = object;
        self.limit_tick = tick;
        self
    }
}
