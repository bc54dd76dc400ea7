// Exit: sched/scheduler.rs of the source.
#![tactic(auto)]

ghost use Rattle.std.specs.Prelude.{drop, ◌≡◌, true, ◌||◌, not, ◌<◌};
ghost use Rattle.kernel.specs.Kernel.{current, whole};
ghost use Rattle.kernel.specs.Scheduler.{terminated, wake_waiter};
ghost use Rattle.kernel.specs.Refusal.{number_of};
ghost use Rattle.kernel.specs.Calls.{exit, number, effect, step, first_of, checks};

use kernel::control::{SlotIndex, TaskControl, TaskId, TaskState};
use kernel::scheduler::{Answer, Kernel, Refusal};

pub mod internal;

// Whether current may exit: not slot 0, nor an owner.
#[tactic(auto, using(base::proofs::Choices::taken, base::proofs::Choices::left, base::proofs::Choices::tests))]
fn check_current(k: &Kernel) -> Result<(), Refusal>
    requires { current k.now < 16 }
    ensures { number_of result ≡ first_of (drop 1 (checks k.now exit)) }
{
    if k.current == SlotIndex(0) {
        return Err(Refusal::IdleExits);
    }
    if 0 < leaf_table::internal::current_task(k).owned_mutex_count {
        return Err(Refusal::OwnsMutex);
    }
    Ok(())
}

fn check_exit(k: &Kernel, known: bool) -> Result<(), Refusal>
    requires { (not known || whole k.now) ≡ true }
    ensures { number_of result ≡ number k.now exit }
{
    leaf_table::internal::check_started(k, known)?;
    check_current(k)
}

fn terminated(mut t: TaskControl) -> TaskControl
    ensures { result ≡ terminated t }
{
    t = t.entered(TaskState::Terminated).with_waiter(None);
    t.remaining_slice = 0;
    t.wake_tick = 0;
    t
}

fn wake_waiter(k: Kernel, waiter: Option<TaskId>) -> Kernel
    ensures { result ≡ wake_waiter waiter k }
{
    match waiter {
        None => k,
        Some(id) => leaf_table::internal::wake(k, id),
    }
}

#[tactic(auto, unfolding(kernel::specs::Calls::effect, kernel::specs::Scheduler::exit))]
fn exited(mut k: Kernel) -> Kernel
    requires { current k < 16 }
    ensures { result ≡ effect k exit }
{
    let i = k.current.0;
    let waiter = k.tasks[i].waiter;
    k.tasks[i] = terminated(k.tasks[i]);
    wake_waiter(k, waiter)
}

pub fn exit_current_task(k: Kernel) -> Answer
    ensures { result ≡ step k exit }
{
    internal::exit_current_task(k, false)
}
