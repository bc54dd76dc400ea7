// Signal of an event: synchronization/event.rs of the source.
#![tactic(auto)]

ghost use Rattle.std.specs.Prelude.{◌≡◌, ◌<◌};
ghost use Rattle.kernel.specs.Calls.{signal, number, value, effect, accepted, step};
ghost use Rattle.kernel.specs.Kernel.{whole};

use kernel::event::Event;
use kernel::scheduler::{Answer, Kernel};
use leaf_table::internal::answer;

pub mod internal;

fn signalled(mut k: Kernel, e: usize) -> Answer
    requires { e < 4 }
    ensures { result ≡ accepted (value k (signal e)) (effect k (signal e)) }
{
    let x = k.events[e];
    let w = leaf_wake::internal::wake_one(&k, x.waiters);
    k.events[e] = Event {
        signaled: w.slot.is_none() | x.signaled,
        waiters: w.waiters,
    };
    answer::woken(k, w.slot)
}

// Heads of the queue are dropped until one was woken, yes; where none was the event is signalled, no. Refused: 1 and 20.
pub fn signal(k: Kernel, e: usize) -> Answer
    ensures { result ≡ step k (signal e) }
{
    internal::signal(k, false, e)
}
