// Look-ups in the task table, and changes of one slot. No calls: some ask something of their caller.
pub mod answer;

ghost use Rattle.std.specs.Prelude.{◌≡◌, true, ◌||◌, not, ◌≤◌, ◌<◌, [], ◌∷◌, IfSome, unwrap_or};
ghost use Rattle.base.specs.Choice.{if◌then◌otherwise◌};
ghost use Rattle.kernel.specs.Control.{unblocked};
ghost use Rattle.std.specs.List.{position};
ghost use Rattle.kernel.specs.Kernel.{holds_id, slot, current, current_task, current_task_id, slot_of, whole};
ghost use Rattle.kernel.specs.Refusal.{number_of};
ghost use Rattle.kernel.specs.Calls.{first_of, not_whole, no_object, not_started};
ghost use Rattle.kernel.specs.Scheduler.{set_status, limited, wake, wakes, owned_up, owned_down};

use kernel::control::{LimitObject, TaskControl, TaskId, TaskState};
use kernel::scheduler::{Kernel, Refusal};

// What a call asks first that needs the kernel started.
pub fn check_started(k: &Kernel, known: bool) -> Result<(), Refusal>
    requires { (not known || whole k.now) ≡ true }
    ensures { number_of result ≡ first_of (not_whole k.now ∷ not_started k.now ∷ []) }
{
    leaf_whole::internal::check(k, known)?;
    if !k.started {
        return Err(Refusal::NotStarted);
    }
    Ok(())
}

// What a call on an object asks first.
pub fn check_object(k: &Kernel, known: bool, o: usize) -> Result<(), Refusal>
    requires { (not known || whole k.now) ≡ true }
    ensures { number_of result ≡ first_of (not_whole k.now ∷ no_object o ∷ []) }
{
    leaf_whole::internal::check(k, known)?;
    if Kernel::OBJECTS <= o {
        return Err(Refusal::NoObject);
    }
    Ok(())
}

// The same where it needs the kernel started.
pub fn check_started_object(k: &Kernel, known: bool, o: usize) -> Result<(), Refusal>
    requires { (not known || whole k.now) ≡ true }
    ensures { number_of result ≡ first_of (not_whole k.now ∷ no_object o ∷ not_started k.now ∷ []) }
{
    check_object(k, known, o)?;
    if !k.started {
        return Err(Refusal::NotStarted);
    }
    Ok(())
}

// The place of the first task that has the id.
fn holder(tasks: &[TaskControl], id: TaskId) -> Option<usize>
    ensures { result ≡ position (holds_id id) tasks.now }
{
    tasks.iter().position(|t| t.occupied & (t.id == id))
}

// The lowest occupied slot that holds the id.
#[tactic(auto, using(base::proofs::Lists::position_lowest, base::proofs::Lists::position_below), unfolding(kernel::specs::Kernel::slot_of))]
pub fn slot_of(k: &Kernel, id: TaskId) -> Option<usize>
    ensures place { unwrap_or result 16 ≡ slot_of k.now id }
    ensures below { IfSome result (λ i. i < 16) }
{
    holder(&k.tasks, id)
}

pub fn current_task(k: &Kernel) -> TaskControl
    requires { current k.now < 16 }
    ensures { result ≡ current_task k.now }
{
    k.tasks[k.current.0]
}

// Current's id.
pub fn current_id(k: &Kernel) -> TaskId
    requires { current k.now < 16 }
    ensures { result ≡ current_task_id k.now }
{
    current_task(k).id
}

pub fn set_status(mut k: Kernel, state: TaskState) -> Kernel
    requires { current k < 16 }
    ensures { result ≡ set_status state k }
{
    let i = k.current.0;
    k.tasks[i] = k.tasks[i].entered(state);
    k
}

// A limit of so many ticks begins, for the wait of current at that object.
pub fn limited(mut k: Kernel, object: LimitObject, ticks: u64) -> Kernel
    requires { current k < 16 }
    ensures { result ≡ limited object ticks k }
{
    let i = k.current.0;
    k.tasks[i] = k.tasks[i].with_limit(object, k.tick_count.saturating_add(ticks));
    k
}

#[tactic(auto, using(base::proofs::Choices::taken, base::proofs::Choices::left, base::proofs::Choices::tests), unfolding(kernel::specs::Control::unblocked))]
fn unblocked(t: TaskControl) -> TaskControl
    ensures { result ≡ unblocked t }
{
    if t.is_blocked() {
        return t.entered(TaskState::Ready);
    }
    t
}

// The task of that id, if it is present and Blocked, becomes Ready.
#[tactic(auto, using(base::proofs::Choices::taken, base::proofs::Choices::left, base::proofs::Choices::tests), unfolding(kernel::specs::Kernel::at_id))]
pub fn wake(mut k: Kernel, id: TaskId) -> Kernel
    ensures { result ≡ wake id k }
{
    let Some(i) = slot_of(&k, id) else {
        return k;
    };
    k.tasks[i] = unblocked(k.tasks[i]);
    k
}

// The slot of that id if the task there is Blocked.
pub fn blocked_slot(k: &Kernel, id: TaskId) -> Option<usize>
    ensures place { unwrap_or result 16 ≡ (if wakes id k.now then slot_of k.now id otherwise 16) }
    ensures below { IfSome result (λ i. i < 16) }
{
    let i = slot_of(k, id)?;
    if k.tasks[i].is_blocked() {
        Some(i)
    } else {
        None
    }
}

// `mutex_acquired` of the source.
#[tactic(auto, using(base::proofs::Choices::taken, base::proofs::Choices::left, base::proofs::Choices::tests), unfolding(kernel::specs::Kernel::at_id))]
pub fn owned_up(mut k: Kernel, id: TaskId) -> Kernel
    requires { slot_of k id < 16 → (slot k (slot_of k id)).owned_mutex_count ≤ 4 }
    ensures { result ≡ owned_up id k }
{
    let Some(i) = slot_of(&k, id) else {
        return k;
    };
    k.tasks[i].owned_mutex_count += 1;
    k
}

// `mutex_released` of the source.
#[tactic(auto, using(base::proofs::Choices::taken, base::proofs::Choices::left, base::proofs::Choices::tests), unfolding(kernel::specs::Kernel::at_id))]
pub fn owned_down(mut k: Kernel, id: TaskId) -> Kernel
    ensures { result ≡ owned_down id k }
{
    let Some(i) = slot_of(&k, id) else {
        return k;
    };
    k.tasks[i].owned_mutex_count = k.tasks[i].owned_mutex_count.saturating_sub(1);
    k
}
