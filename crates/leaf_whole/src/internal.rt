// Whether a kernel is whole, and of what that is made. No calls.
ghost use Rattle.std.specs.Prelude.{◌≡◌, [], ◌∷◌, ◌++◌, map, true, ◌&&◌, ◌||◌, not, leb};
ghost use Rattle.std.specs.List.{list_all, count_by};
ghost use Rattle.std.specs.Option.{is_some};
ghost use Rattle.kernel.specs.Control.{in_state, has_limit, object_fits, region_fits};
ghost use Rattle.kernel.specs.Kernel.{charge_sum, arena_fits, is_occupied, region_whole, owned_whole, queues_whole, limit_whole, whole};
ghost use Rattle.kernel.specs.Refusal.{number_of};
ghost use Rattle.kernel.specs.Calls.{first_of, not_whole};

use kernel::control::{StackRegion, TaskControl, TaskState};
use kernel::scheduler::{Kernel, Refusal};
use kernel::wait_queue::WaitQueue;

#[tactic(auto, unfolding(kernel::specs::Kernel::arena_fits))]
pub fn arena_fits(words: usize) -> bool
    ensures { result ≡ arena_fits words }
{
    (Kernel::MIN_ARENA_WORDS <= words) & (words <= Kernel::MAX_ARENA_WORDS)
}

// Multiples of 4, at least 16 bytes long, inside an arena of that many words.
pub fn region_fits(region: StackRegion, words: u32) -> bool
    ensures { result ≡ region_fits words region }
{
    let end = u64::from(region.start) + u64::from(region.size);
    (region.start % StackRegion::WORD_SIZE == 0)
        & (region.size % StackRegion::WORD_SIZE == 0)
        & (StackRegion::MIN_SIZE <= region.size)
        & (end <= u64::from(StackRegion::WORD_SIZE) * u64::from(words))
}

fn region_whole(t: &TaskControl, words: u32) -> bool
    ensures { result ≡ (not t.now.occupied || region_fits words t.now.stack) }
{
    let stack = t.stack;
    !t.occupied | region_fits(stack, words)
}

// A limit in a Blocked task only, with an object number below 4.
fn limit_whole(t: &TaskControl) -> bool
    ensures { result ≡ (not (t.now.occupied && has_limit t.now) || (in_state TaskState.Blocked t.now && object_fits t.now.limit_object)) }
{
    let object = t.limit_object;
    !(t.occupied & object.is_limit()) | (t.is_blocked() & object.fits())
}

fn is_occupied(k: &Kernel, i: usize) -> bool
    ensures { result ≡ is_occupied k.now i }
{
    k.tasks.get(i).is_some_and(|t| t.occupied)
}

fn regions_whole(k: &Kernel) -> bool
    ensures { result ≡ list_all (λ t. not t.occupied || region_fits k.now.arena_words t.stack) k.now.tasks }
{
    let words = k.arena_words;
    k.tasks.iter().all(|t| region_whole(t, words))
}

fn owned_whole(k: &Kernel) -> bool
    ensures { result ≡ list_all (λ t. not t.occupied || leb t.owned_mutex_count 4) k.now.tasks }
{
    k.tasks.iter().all(|t| !t.occupied | (t.owned_mutex_count <= TaskControl::MAX_OWNED_MUTEXES))
}

fn limits_whole(k: &Kernel) -> bool
    ensures { result ≡ list_all (λ t. not (t.occupied && has_limit t) || (in_state TaskState.Blocked t && object_fits t.limit_object)) k.now.tasks }
{
    k.tasks.iter().all(|t| limit_whole(t))
}

fn occupied(k: &Kernel) -> usize
    ensures { result ≡ count_by (λ t. t.occupied) k.now.tasks }
{
    k.tasks.iter().filter(|t| t.occupied).count()
}

// What is left of tick_count once the retired sum and the charges are taken off it, one after another, so that no sum is formed that could wrap; none where they are more.
fn uncharged(k: &Kernel) -> Option<u64>
    ensures { is_some result ≡ leb (charge_sum k.now) k.now.tick_count }
{
    let mut left = k.tick_count.checked_sub(k.retired_charge)?;
    for charge in k.charges {
        left = left.checked_sub(charge)?;
    }
    Some(left)
}

fn queues_whole(k: &Kernel) -> bool
    ensures { result ≡ list_all (λ n. leb n 8) (map (λ m. m.waiters.len) k.now.mutexes ++ map (λ s. s.waiters.len) k.now.semaphores ++ map (λ e. e.waiters.len) k.now.events) }
{
    k.mutexes
        .iter()
        .map(|m| m.waiters.len)
        .chain(k.semaphores.iter().map(|s| s.waiters.len))
        .chain(k.events.iter().map(|e| e.waiters.len))
        .all(|len| len <= WaitQueue::MAX_WAITERS)
}

fn is_whole(k: Kernel) -> bool
    ensures { result ≡ whole k }
{
    // The charges come first: so it has fewer instructions.
    let charged = uncharged(&k).is_some();
    let current = k.current.0;
    arena_fits(k.arena_words as usize)
        & (1 <= k.hz)
        & (current < Kernel::MAX_TASKS)
        & is_occupied(&k, 0)
        & is_occupied(&k, current)
        & regions_whole(&k)
        & queues_whole(&k)
        & (k.task_count as usize == occupied(&k))
        & owned_whole(&k)
        & charged
        & limits_whole(&k)
}

// Where `known` is true the caller knows that the kernel is whole, and it is not looked at.
#[tactic(auto, using(base::proofs::Choices::taken, base::proofs::Choices::left, base::proofs::Choices::implied))]
pub fn check(k: &Kernel, known: bool) -> Result<(), Refusal>
    requires { (not known || whole k.now) ≡ true }
    ensures { number_of result ≡ first_of (not_whole k.now ∷ []) }
{
    if known {
        return Ok(());
    }
    if !is_whole(*k) {
        return Err(Refusal::NotWhole);
    }
    Ok(())
}
