// Wait: sched/scheduler.rs of the source.
#![tactic(auto)]

ghost use Rattle.std.specs.Prelude.{drop, ◌≡◌, true, ◌||◌, IfOk, not, ◌&&◌, ◌<◌};
ghost use Rattle.kernel.specs.Kernel.{current, slot_of, whole};
ghost use Rattle.kernel.specs.Refusal.{number_of};
ghost use Rattle.kernel.specs.Calls.{wait, other_waiter, number, effect, step, first_of, checks};

use kernel::control::{TaskId, TaskState};
use kernel::scheduler::{Answer, Kernel, Refusal};

pub mod internal;

fn other_waiter(waiter: Option<TaskId>, id: TaskId) -> bool
    ensures { result ≡ other_waiter waiter id }
{
    waiter.is_some_and(|other| other != id)
}

// The slot of the task that is waited for: not oneself, and not waited for by another unless it is Terminated.
#[tactic(auto, using(base::proofs::Choices::taken, base::proofs::Choices::left, base::proofs::Choices::tests))]
fn check_target(k: &Kernel, id: TaskId) -> Result<usize, Refusal>
    requires { current k.now < 16 }
    ensures number { number_of result ≡ first_of (drop 1 (checks k.now (wait id))) }
    ensures slot { IfOk result (λ i. i ≡ slot_of k.now id) }
    ensures below { IfOk result (λ i. i < 16) }
{
    let own = leaf_table::internal::current_id(k);
    if own == id {
        return Err(Refusal::UnfitOperand);
    }
    let i = leaf_table::internal::slot_of(k, id).ok_or(Refusal::UnknownId)?;
    if !k.tasks[i].is_terminated() & other_waiter(k.tasks[i].waiter, own) {
        return Err(Refusal::TaskInUse);
    }
    Ok(i)
}

fn check_wait(k: &Kernel, known: bool, id: TaskId) -> Result<usize, Refusal>
    requires { (not known || whole k.now) ≡ true }
    ensures number { number_of result ≡ number k.now (wait id) }
    ensures slot { IfOk result (λ i. i ≡ slot_of k.now id) }
    ensures below { IfOk result (λ i. i < 16) }
{
    leaf_table::internal::check_started(k, known)?;
    check_target(k, id)
}

#[tactic(auto, using(base::proofs::Choices::taken, base::proofs::Choices::left, base::proofs::Choices::tests), unfolding(kernel::specs::Calls::effect, kernel::specs::Scheduler::wait))]
fn waited(mut k: Kernel, i: usize, id: TaskId) -> Kernel
    requires { (current k < 16) × (i ≡ slot_of k id) × (slot_of k id < 16) }
    ensures { result ≡ effect k (wait id) }
{
    if k.tasks[i].is_terminated() {
        return k;
    }
    let own = leaf_table::internal::current_id(&k);
    k.tasks[i] = k.tasks[i].with_waiter(Some(own));
    leaf_table::internal::set_status(k, TaskState::Blocked)
}

pub fn wait_task(k: Kernel, id: TaskId) -> Answer
    ensures { result ≡ step k (wait id) }
{
    internal::wait_task(k, false, id)
}
