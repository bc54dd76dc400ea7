// Start: sched/scheduler.rs of the source.
#![tactic(auto)]

ghost use Rattle.std.specs.Prelude.{◌≡◌, true, ◌||◌, not, ◌<◌};
ghost use Rattle.kernel.specs.Refusal.{number_of};
ghost use Rattle.kernel.specs.Calls.{start, number, value, effect, accepted, step};
ghost use Rattle.kernel.specs.Kernel.{current, whole};
ghost use Rattle.kernel.specs.Scheduler.{next_task};

use kernel::control::{SlotIndex, TaskState};
use kernel::scheduler::{Answer, Kernel, Refusal, Value};
use leaf_table::internal::answer;

pub mod internal;

fn check_start(k: &Kernel, known: bool) -> Result<(), Refusal>
    requires { (not known || whole k.now) ≡ true }
    ensures { number_of result ≡ number k.now start }
{
    leaf_whole::internal::check(k, known)?;
    if k.started {
        return Err(Refusal::AlreadyStarted);
    }
    Ok(())
}

// The slot that is picked. Where no mutex has a queue each rank is the own number, and the pick by number is the pick. It stands in start and in
// switch alike: there the compiler takes it in, and copies no kernel for the pick by number (docs/DECISIONS.md, W-205).
fn picked(k: Kernel) -> SlotIndex
    requires { k.current.0 < 16 }
    ensures { (result.0 ≡ next_task k) × (result.0 < 16) }
{
    if leaf_rank::internal::no_queues(k) {
        return pick::internal::next_by_number(k);
    }
    pick::internal::next_task(k)
}

#[tactic(auto, unfolding(kernel::specs::Calls::value, kernel::specs::Calls::effect, kernel::specs::Scheduler::start))]
fn started(mut k: Kernel) -> Answer
    requires { current k < 16 }
    ensures { result ≡ accepted (value k start) (effect k start) }
{
    let slot = picked(k);
    let i = slot.0;
    k.started = true;
    k.tasks[i] = k.tasks[i].entered(TaskState::Running);
    k.current = slot;
    answer::accepted(Value::Turn(slot, k.tasks[i].sp), k)
}

pub fn start(k: Kernel) -> Answer
    ensures { result ≡ step k start }
{
    internal::start(k, false)
}
