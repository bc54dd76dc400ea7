// Calls on current: its id, and its state. sched/scheduler.rs of the source.
#![tactic(auto)]

ghost use Rattle.std.specs.Prelude.{◌≡◌, true, ◌||◌, not, ◌<◌, eqb, leb, IfSome, is_some, IfOk};
ghost use Rattle.kernel.specs.Control.{state_of};
ghost use Rattle.kernel.specs.Kernel.{current, whole};
ghost use Rattle.kernel.specs.Scheduler.{sleep as slept};
ghost use Rattle.kernel.specs.Refusal.{number_of};
ghost use Rattle.kernel.specs.Calls.{current_id, status, block, sleep, number, step};

use kernel::control::{TaskControl, TaskState};
use kernel::scheduler::{Answer, Kernel, Refusal, Value};
use leaf_table::internal::answer;

pub mod internal;

#[tactic(auto, using(kernel::proofs::Step::step_refused, kernel::proofs::Step::step_accepted), unfolding(kernel::specs::Calls::number, kernel::specs::Calls::value, kernel::specs::Calls::effect))]
pub fn current_task_id(k: Kernel) -> Answer
    ensures { result ≡ step k current_id }
{
    if let Err(refusal) = leaf_table::internal::check_started(&k, false) {
        return answer::refused_by(refusal, k);
    }
    answer::accepted(Value::Id(leaf_table::internal::current_id(&k)), k)
}

// The state of that number, if status may give it: neither Running nor Terminated.
fn state_to_set(n: u8) -> Option<TaskState>
    ensures fit { is_some result ≡ not (eqb n 1 || leb 5 n) }
    ensures state { IfSome result (λ s. s ≡ state_of n) }
{
    match n {
        0 => Some(TaskState::Ready),
        2 => Some(TaskState::Blocked),
        3 => Some(TaskState::Sleeping),
        4 => Some(TaskState::Suspended),
        _ => None,
    }
}

fn check_status(k: &Kernel, known: bool, state: u8) -> Result<TaskState, Refusal>
    requires { (not known || whole k.now) ≡ true }
    ensures number { number_of result ≡ number k.now (status state) }
    ensures state { IfOk result (λ s. s ≡ state_of state) }
{
    leaf_table::internal::check_started(k, known)?;
    state_to_set(state).ok_or(Refusal::UnfitOperand)
}

pub fn set_current_task_status(k: Kernel, state: u8) -> Answer
    ensures { result ≡ step k (status state) }
{
    internal::set_current_task_status(k, false, state)
}

pub fn block_current_task(k: Kernel) -> Answer
    ensures { result ≡ step k block }
{
    internal::block_current_task(k, false)
}

fn put_to_sleep(mut k: Kernel, ticks: u64) -> Kernel
    requires { current k < 16 }
    ensures { result ≡ slept ticks k }
{
    let i = k.current.0;
    k.tasks[i] = TaskControl {
        wake_tick: k.tick_count.saturating_add(ticks),
        ..k.tasks[i].entered(TaskState::Sleeping)
    };
    k
}

pub fn current_task_sleep_ticks(k: Kernel, ticks: u64) -> Answer
    ensures { result ≡ step k (sleep ticks) }
{
    internal::current_task_sleep_ticks(k, false, ticks)
}
