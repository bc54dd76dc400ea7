// Switch: sched/scheduler.rs of the source.
#![tactic(auto)]

ghost use Rattle.std.specs.Prelude.{◌≡◌, true, ◌||◌, not, ◌+◌, ◌/◌, ◌<◌, ◌≤◌, length, eqb};
ghost use Rattle.std.specs.List.{list_all};
ghost use Rattle.base.specs.Choice.{if◌then◌otherwise◌};
ghost use Rattle.kernel.specs.Control.{paint, sp_in_range, stack_guard_ok};
ghost use Rattle.kernel.specs.Kernel.{current, whole};
ghost use Rattle.kernel.specs.Scheduler;
ghost use Rattle.kernel.specs.Scheduler.{context_saved, save_context, reloaded, next_task};
ghost use Rattle.kernel.specs.Refusal.{number_of};
ghost use Rattle.kernel.specs.Calls.{switch, number, accepted, picked, step};

use kernel::control::{SlotIndex, StackRegion, TaskControl, TaskState};
use kernel::scheduler::{Answer, Kernel, Refusal, Value};
use leaf_table::internal::answer;

pub mod internal;

#[tactic(auto, unfolding(kernel::specs::Control::sp_in_range))]
fn sp_in_range(region: StackRegion, sp: u32) -> bool
    ensures { result ≡ sp_in_range region sp }
{
    let end = (region.start as u64) + (region.size as u64);
    (region.start <= sp) & ((sp as u64) < end)
}

fn all_painted(words: &[u32]) -> bool
    ensures { result ≡ list_all (λ w. eqb w paint) words.now }
{
    words.iter().all(|w| *w == TaskControl::STACK_MAGIC)
}

// Whether the region's first four words are all painted.
fn stack_guard_ok(region: StackRegion, arena: &[u32]) -> bool
    requires { region.start / 4 + 4 ≤ length arena.now }
    ensures { result ≡ stack_guard_ok region arena.now }
{
    let start = (region.start / StackRegion::WORD_SIZE) as usize;
    all_painted(&arena[start..start + TaskControl::STACK_GUARD_WORDS])
}

#[tactic(auto, using(base::proofs::Choices::taken, base::proofs::Choices::left, base::proofs::Choices::tests))]
fn check_stack(stack: StackRegion, sp: u32, arena: &[u32]) -> Result<(), Refusal>
    requires { stack.start / 4 + 4 ≤ length arena.now }
    ensures { number_of result ≡ (if not (sp_in_range stack sp) then 16 otherwise if not (stack_guard_ok stack arena.now) then 17 otherwise 0) }
{
    if !sp_in_range(stack, sp) {
        return Err(Refusal::SpOutside);
    }
    if !stack_guard_ok(stack, arena) {
        return Err(Refusal::GuardNotIntact);
    }
    Ok(())
}

fn check_switch(k: &Kernel, known: bool, sp: u32, arena: &[u32]) -> Result<(), Refusal>
    requires { (not known || whole k.now) ≡ true }
    ensures { number_of result ≡ number k.now (switch arena.now sp) }
{
    leaf_whole::internal::check(k, known)?;
    if arena.len() != k.arena_words as usize {
        return Err(Refusal::NotWhole);
    }
    if !k.started {
        return Err(Refusal::NotStarted);
    }
    check_stack(k.tasks[k.current.0].stack, sp, arena)
}

// The task that leaves the processor.
#[tactic(auto, using(base::proofs::Choices::taken, base::proofs::Choices::left, base::proofs::Choices::tests), unfolding(kernel::specs::Scheduler::context_saved))]
fn context_saved(mut t: TaskControl, sp: u32) -> TaskControl
    ensures { result ≡ context_saved sp t }
{
    t.sp = sp;
    if t.is_running() {
        return t.entered(TaskState::Ready);
    }
    t
}

#[tactic(auto, using(base::proofs::Choices::taken, base::proofs::Choices::left, base::proofs::Choices::tests), unfolding(kernel::specs::Scheduler::reloaded))]
fn reloaded(mut t: TaskControl) -> TaskControl
    ensures { result ≡ reloaded t }
{
    if t.remaining_slice == 0 {
        t.remaining_slice = t.time_slice;
    }
    t
}

// The slot that is picked. Where no mutex has a queue each rank is the own number, and the pick by number is the pick. It stands in start and in
// switch alike: there the compiler takes it in, and copies no kernel for the pick by number (docs/DECISIONS.md, W-205).
fn picked(k: Kernel) -> SlotIndex
    requires { k.current.0 < 16 }
    ensures { (result.0 ≡ next_task k) × (result.0 < 16) }
{
    if leaf_rank::internal::no_queues(k) {
        return pick::internal::next_by_number(k);
    }
    pick::internal::next_task(k)
}

fn switched(mut k: Kernel, sp: u32) -> Answer
    requires { current k < 16 }
    ensures { result ≡ accepted (picked (save_context sp k)) (Scheduler.switch sp k) }
{
    let c = k.current.0;
    k.tasks[c] = context_saved(k.tasks[c], sp);
    let slot = picked(k);
    let i = slot.0;
    let t = k.tasks[i];
    k.tasks[i] = reloaded(t).entered(TaskState::Running);
    k.current = slot;
    answer::accepted(Value::Turn(slot, t.sp), k)
}

// Stores sp in current and picks. Refused: 1, 2, 16 and 17.
pub fn switch(k: Kernel, sp: u32, arena: &[u32]) -> Answer
    ensures { result ≡ step k (switch arena.now sp) }
{
    internal::switch(k, false, sp, arena)
}
