// Operations on a wait queue: synchronization/wait_queue.rs of the source. Module `lent` has them on a queue that is lent, as the source does; here each takes a queue and returns one. Any queue is taken, whatever its length says.
#![tactic(auto)]

pub mod lent;

ghost use Rattle.std.specs.Prelude.{◌≡◌, not, ◌&&◌};
ghost use Rattle.kernel.specs.WaitQueue.{contains, is_full, enqueued, popped, removed};

use kernel::control::TaskId;
use kernel::wait_queue::WaitQueue;

// Whether the id is queued.
pub fn contains(q: WaitQueue, id: TaskId) -> bool
    ensures { result ≡ contains q id }
{
    lent::contains(&q, id)
}

// Whether eight are queued and the id is not among them.
pub fn no_room(q: WaitQueue, id: TaskId) -> bool
    ensures { result ≡ (is_full q && not (contains q id)) }
{
    (WaitQueue::MAX_WAITERS <= q.len) & !contains(q, id)
}

// The id at the end unless it is queued.
#[tactic(auto, using(base::proofs::Choices::taken, base::proofs::Choices::left, base::proofs::Choices::tests), unfolding(kernel::specs::WaitQueue::enqueued))]
pub fn queued(mut q: WaitQueue, id: TaskId) -> WaitQueue
    ensures { result ≡ enqueued q id }
{
    if !contains(q, id) {
        lent::push(&mut q, id);
    }
    q
}

// The head dropped; an empty queue stays.
pub fn popped(mut q: WaitQueue) -> WaitQueue
    ensures { result ≡ popped q }
{
    lent::pop(&mut q);
    q
}

// The id taken out where it waits first; a queue without it stays.
pub fn removed(mut q: WaitQueue, id: TaskId) -> WaitQueue
    ensures { result ≡ removed q id }
{
    lent::remove(&mut q, id);
    q
}
