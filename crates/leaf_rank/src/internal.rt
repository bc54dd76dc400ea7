// The rank of each slot (02, W-205): a task that waits at a mutex passes its number on to the mutex's owner, and on along the chain.
// Arrays go from call to call by value, and the walk along a chain is lent them.
ghost use Rattle.std.specs.Prelude.{◌≡◌, ◌<◌, length};
ghost use Rattle.std.specs.List.{list_all, position};
ghost use Rattle.base.specs.Below.{tabulate};
ghost use Rattle.kernel.specs.Kernel.{mutex};
ghost use Rattle.kernel.specs.WaitQueue.{contains, is_empty};
ghost use Rattle.kernel.specs.Rank.{priority_of, owner_slot, link, no_queues, rank};
ghost use Rattle.leaf_rank.specs.Inherited.{some_slot, link_of, Slots, Each, inherited_by, inherited_from, Inherited};

use kernel::control::{TaskControl, TaskId};
use kernel::mutex::Mutex;
use kernel::scheduler::Kernel;
use std::array;

fn all_empty(mutexes: [Mutex; Kernel::OBJECTS]) -> bool
    ensures { result ≡ list_all (λ m. is_empty m.waiters) mutexes }
{
    mutexes.iter().all(|m| m.waiters.len == 0)
}

// Whether no mutex has a queue.
pub fn no_queues(k: Kernel) -> bool
    ensures { result ≡ no_queues k }
{
    all_empty(k.mutexes)
}

// ---- links

// The lowest mutex at which the id is queued.
fn queued_at(mutexes: &[Mutex; Kernel::OBJECTS], id: TaskId) -> Option<usize>
    ensures { result ≡ position (λ m. contains m.waiters id) mutexes.now }
{
    mutexes
        .iter()
        .position(|m| leaf_queue::lent::contains(&m.waiters, id))
}

fn owner_slot(k: &Kernel, owner: Option<TaskId>) -> Option<usize>
    ensures { result ≡ some_slot (owner_slot k.now owner) }
{
    leaf_table::internal::slot_of(k, owner?)
}

fn owner_slots(k: &Kernel) -> [Option<usize>; Kernel::OBJECTS]
    ensures { result ≡ tabulate (λ m. some_slot (owner_slot k.now (mutex k.now m).owner)) 4 }
{
    array::from_fn(|m| owner_slot(k, k.mutexes[m].owner))
}

#[tactic(auto, using(base::proofs::Choices::taken, base::proofs::Choices::left), unfolding(crate::specs::Inherited::link_of, kernel::specs::Control::holds_task))]
fn link_of(
    t: &TaskControl,
    mutexes: &[Mutex; Kernel::OBJECTS],
    owners: &[Option<usize>; Kernel::OBJECTS],
) -> Option<usize>
    ensures { result ≡ link_of t.now mutexes.now owners.now }
{
    if !(t.occupied & t.is_blocked()) {
        return None;
    }
    let m = queued_at(mutexes, t.id)?;
    owners[m]
}

fn links(k: &Kernel) -> [Option<usize>; Kernel::MAX_TASKS]
    ensures { result ≡ tabulate (λ j. some_slot (link k.now j)) 16 }
{
    let owners = owner_slots(k);
    array::from_fn(|i| link_of(&k.tasks[i], &k.mutexes, &owners))
}

// ---- chains

// A number passed on along the chain from slot `at`, with so many links left; a ring ends where it meets itself: `met` are the slots that the chain has met.
fn inherit(
    links: &[Option<usize>; Kernel::MAX_TASKS],
    met: &mut [bool; Kernel::MAX_TASKS],
    ranks: &mut [u8; Kernel::MAX_TASKS],
    number: u8,
    at: usize,
    left: usize,
)
    requires { (at < 16) × Slots links.now × (length met.old ≡ 16) × (length ranks.old ≡ 16) }
    ensures { Each 16 (inherited_by links.now met.old ranks.old number at left) ranks.new }
{
    if left == 0 {
        return;
    }
    let Some(to) = links[at] else {
        return;
    };
    if met[to] {
        return;
    }
    met[to] = true;
    ranks[to] = ranks[to].min(number);
    inherit(links, met, ranks, number, to, left - 1);
}

// A number passed on along the chain from slot j.
fn inherit_from(
    links: &[Option<usize>; Kernel::MAX_TASKS],
    ranks: &mut [u8; Kernel::MAX_TASKS],
    number: u8,
    j: usize,
)
    requires { (j < 16) × Slots links.now × (length ranks.old ≡ 16) }
    ensures { Each 16 (inherited_from links.now ranks.old number j) ranks.new }
{
    if links[j].is_none() {
        return;
    }
    let mut met = [false; Kernel::MAX_TASKS];
    met[j] = true;
    inherit(links, &mut met, ranks, number, j, Kernel::MAX_TASKS);
}

// Each slot's number passed on in turn.
fn inherited(
    links: [Option<usize>; Kernel::MAX_TASKS],
    own: [u8; Kernel::MAX_TASKS],
) -> [u8; Kernel::MAX_TASKS]
    requires { Slots links }
    ensures { Inherited links own result 16 }
{
    let mut ranks = own;
    for (j, number) in own.iter().enumerate() {
        inherit_from(&links, &mut ranks, *number, j);
    }
    ranks
}

fn own_numbers(k: &Kernel) -> [u8; Kernel::MAX_TASKS]
    ensures { result ≡ tabulate (priority_of k.now) 16 }
{
    array::from_fn(|i| k.tasks[i].priority.0)
}

// The rank of each slot.
pub fn ranks(k: Kernel) -> [u8; Kernel::MAX_TASKS]
    ensures { Each 16 (rank k) result }
{
    let own = own_numbers(&k);
    inherited(links(&k), own)
}
