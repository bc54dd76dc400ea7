// Release of a semaphore: synchronization/semaphore.rs of the source.
#![tactic(auto)]

ghost use Rattle.std.specs.Prelude.{◌≡◌, true, ◌||◌, not, ◌<◌};
ghost use Rattle.kernel.specs.Kernel.{semaphore, whole};
ghost use Rattle.kernel.specs.Refusal.{number_of};
ghost use Rattle.kernel.specs.Calls.{release, number, value, effect, accepted, step};

use kernel::scheduler::{Answer, Kernel, Refusal};
use kernel::semaphore::Semaphore;
use leaf_table::internal::answer;

pub mod internal;

fn check_release(k: &Kernel, known: bool, s: usize) -> Result<(), Refusal>
    requires { (not known || whole k.now) ≡ true }
    ensures { number_of result ≡ number k.now (release s) }
{
    leaf_table::internal::check_object(k, known, s)?;
    if k.semaphores[s].count == u32::MAX {
        return Err(Refusal::LastPermit);
    }
    Ok(())
}

fn released(mut k: Kernel, s: usize) -> Answer
    requires { (s < 4) × ((semaphore k s).count ≡ 4294967295 → ⊥) }
    ensures { result ≡ accepted (value k (release s)) (effect k (release s)) }
{
    let x = k.semaphores[s];
    let w = leaf_wake::internal::wake_one(&k, x.waiters);
    k.semaphores[s] = Semaphore {
        count: x.count + 1,
        waiters: w.waiters,
    };
    answer::woken(k, w.slot)
}

// Count up, then heads of the queue are dropped until one was woken; yes where one was. Refused: 1, 20 and 19.
pub fn release(k: Kernel, s: usize) -> Answer
    ensures { result ≡ step k (release s) }
{
    internal::release(k, false, s)
}
