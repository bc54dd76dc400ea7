// The operations on a queue that is lent, as the source has them; the work is done here, in place.
ghost use Rattle.std.specs.Prelude.{◌≡◌, ◌<◌, IfSome, unwrap_or};
ghost use Rattle.kernel.specs.WaitQueue.{position, contains, pushed, without, popped, removed};

use kernel::control::TaskId;
use kernel::wait_queue::WaitQueue;

// Where the id waits first.
fn position(q: &WaitQueue, id: TaskId) -> Option<usize>
    ensures place { unwrap_or result 8 ≡ position q.now id }
    ensures below { IfSome result (λ j. (j < 8) × (j < q.now.len)) }
{
    q.ids.iter().take(q.len).position(|x| *x == id)
}

// Whether the id is queued.
pub fn contains(q: &WaitQueue, id: TaskId) -> bool
    ensures { result ≡ contains q.now id }
{
    position(q, id).is_some()
}

// The id put at the end; a full queue stays.
#[tactic(auto, using(base::proofs::Choices::taken, base::proofs::Choices::left, base::proofs::Choices::tests), unfolding(kernel::specs::WaitQueue::pushed))]
pub fn push(q: &mut WaitQueue, id: TaskId)
    ensures { q.new ≡ pushed q.old id }
{
    if q.len < WaitQueue::MAX_WAITERS {
        q.ids[q.len] = id;
        q.len += 1;
    }
}

// Place i taken out: the ids behind it move up, and from the new length on every place is zero.
fn take_out(q: &mut WaitQueue, i: usize)
    requires { (i < 8) × (0 < q.old.len) }
    ensures { q.new ≡ without q.old i }
{
    q.len -= 1;
    q.ids.copy_within(i + 1.., i);
    q.ids[q.len.min(WaitQueue::MAX_WAITERS - 1)..].fill(TaskId(0));
}

// The head dropped; an empty queue stays.
#[tactic(auto, using(base::proofs::Choices::taken, base::proofs::Choices::left, base::proofs::Choices::tests), unfolding(kernel::specs::WaitQueue::popped))]
pub fn pop(q: &mut WaitQueue)
    ensures { q.new ≡ popped q.old }
{
    if q.len != 0 {
        take_out(q, 0);
    }
}

// The id taken out where it waits first; a queue without it stays.
#[tactic(auto, using(base::proofs::Choices::taken, base::proofs::Choices::left, base::proofs::Choices::tests), unfolding(kernel::specs::WaitQueue::removed))]
pub fn remove(q: &mut WaitQueue, id: TaskId)
    ensures { q.new ≡ removed q.old id }
{
    if let Some(i) = position(q, id) {
        take_out(q, i);
    }
}
