// A new task: `add_task` of sched/scheduler.rs.
#![tactic(auto)]

ghost use Rattle.std.specs.Prelude.{drop, List, length, ◌≡◌, true, ◌||◌, not, IfSome, IfOk, unwrap_or, ◌&&◌, ◌<◌, ◌≤◌, ◌^◌, ℕ};
ghost use Rattle.std.specs.List.{position, list_any};
ghost use Rattle.kernel.specs.Control.{region_end, regions_overlap};
ghost use Rattle.kernel.specs.Kernel.{whole};
ghost use Rattle.kernel.specs.Scheduler;
ghost use Rattle.kernel.specs.Scheduler.{lowest_empty, overlaps_present};
ghost use Rattle.kernel.specs.declared.control.Priority.{Priority as PriorityValue};
ghost use Rattle.kernel.specs.Refusal.{number_of};
ghost use Rattle.kernel.specs.Calls.{add, add_words, step, number, first_of, checks};

use kernel::control::{Priority, StackRegion, TaskControl, TaskId};
use kernel::scheduler::{Answer, Kernel, Refusal};

pub mod internal;

// The place of the first slot that is not occupied.
fn first_empty(tasks: &[TaskControl]) -> Option<usize>
    ensures { result ≡ position (λ t. not t.occupied) tasks.now }
{
    tasks.iter().position(|t| !t.occupied)
}

// The lowest empty slot.
#[tactic(auto, using(base::proofs::Lists::position_lowest, base::proofs::Lists::position_below), unfolding(kernel::specs::Scheduler::lowest_empty))]
fn free_slot(k: &Kernel) -> Option<usize>
    ensures place { unwrap_or result 16 ≡ lowest_empty k.now }
    ensures below { IfSome result (λ i. i < 16) }
{
    first_empty(&k.tasks)
}

#[tactic(auto, unfolding(kernel::specs::Control::regions_overlap))]
fn regions_overlap(r: StackRegion, s: StackRegion) -> bool
    ensures { result ≡ regions_overlap r s }
{
    let r_end = (r.start as u64) + (r.size as u64);
    let s_end = (s.start as u64) + (s.size as u64);
    ((r.start as u64) < s_end) & ((s.start as u64) < r_end)
}

// Whether the region overlaps one of an occupied slot of these.
fn overlaps(tasks: &[TaskControl], region: StackRegion) -> bool
    ensures { result ≡ list_any (λ t. t.occupied && regions_overlap region t.stack) tasks.now }
{
    tasks
        .iter()
        .any(|t| t.occupied & regions_overlap(region, t.stack))
}

// Whether the region overlaps one that is present.
fn overlaps_present(k: &Kernel, region: StackRegion) -> bool
    ensures { result ≡ overlaps_present region k.now }
{
    overlaps(&k.tasks, region)
}

// The slot for the new task, if the region fits and there is an id left.
#[tactic(auto, using(base::proofs::Choices::taken, base::proofs::Choices::left, base::proofs::Choices::tests, crate::proofs::Laws::slot_found))]
fn check_room(k: &Kernel, region: StackRegion) -> Result<usize, Refusal>
    ensures number { (arena : List ℕ) (p : PriorityValue) → number_of result ≡ first_of (drop 1 (checks k.now (add arena p region))) }
    ensures slot { IfOk result (λ i. i ≡ lowest_empty k.now) }
{
    let i = free_slot(k).ok_or(Refusal::NoEmptySlot)?;
    if !leaf_whole::internal::region_fits(region, k.arena_words) | overlaps_present(k, region) {
        return Err(Refusal::UnfitRegion);
    }
    if TaskId::LAST < k.next_id {
        return Err(Refusal::NoIdLeft);
    }
    Ok(i)
}

fn check_add(k: &Kernel, known: bool, region: StackRegion, words: usize) -> Result<usize, Refusal>
    requires { (not known || whole k.now) ≡ true }
    ensures number { (arena : List ℕ) (p : PriorityValue) → length arena ≡ words → number_of result ≡ number k.now (add arena p region) }
    ensures slot { IfOk result (λ i. i ≡ lowest_empty k.now) }
{
    leaf_whole::internal::check(k, known)?;
    if words != k.arena_words as usize {
        return Err(Refusal::NotWhole);
    }
    check_room(k, region)
}

#[tactic(auto, unfolding(kernel::specs::Scheduler::add))]
fn added(mut k: Kernel, i: usize, priority: Priority, region: StackRegion) -> Kernel
    requires { (i ≡ lowest_empty k) × (lowest_empty k < 16) × (region_end region < 2 ^ 32) × (k.next_id ≤ 4294967295) × (k.task_count ≤ 16) }
    ensures { result ≡ Scheduler.add priority region k }
{
    k.tasks[i] = TaskControl::new(TaskId(k.next_id as u32), priority, region);
    k.charges[i] = 0;
    k.next_id += 1;
    k.task_count += 1;
    k
}

// Paints the region and nothing else of the arena. Refused: 1, 4, 5 and 6.
pub fn add_task(k: Kernel, priority: Priority, region: StackRegion, arena: &mut [u32]) -> Answer
    ensures { (result ≡ step k (add arena.old priority region)) × (arena.new ≡ add_words k priority region arena.old) }
{
    internal::add_task(k, false, priority, region, arena)
}
