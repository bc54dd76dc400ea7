// The tick: `update_tick` of sched/scheduler.rs.
#![tactic(auto)]

ghost use Rattle.std.specs.Prelude.{◌≡◌, true, ◌||◌, not, ◌-◌, ◌^◌, ◌<◌};
ghost use Rattle.kernel.specs.Kernel.{whole};
ghost use Rattle.kernel.specs.Scheduler.{is_due, is_limit_due, spent};
ghost use Rattle.kernel.specs.Calls.{tick, number, value, effect, accepted, step};

use kernel::control::{LimitObject, TaskControl, TaskState};
use kernel::scheduler::{Answer, Kernel, Value};
use leaf_table::internal::answer;

pub mod internal;

#[tactic(auto, using(crate::proofs::Laws::awake, crate::proofs::Laws::asleep))]
fn is_due(t: TaskControl, now: u64) -> bool
    ensures { result ≡ is_due now t }
{
    t.is_sleeping() && (t.occupied & (t.wake_tick <= now))
}

#[tactic(auto, using(crate::proofs::Laws::without_limit, crate::proofs::Laws::with_limit_lem))]
fn is_limit_due(t: TaskControl, now: u64) -> bool
    ensures { result ≡ is_limit_due now t }
{
    t.limit_object.is_limit() && (t.occupied & (t.limit_tick <= now))
}

// One tick off the slice; at 0 it is full again.
#[tactic(auto, using(base::proofs::Choices::taken, base::proofs::Choices::left, base::proofs::Choices::tests))]
fn spent(mut t: TaskControl) -> TaskControl
    ensures { result ≡ spent t }
{
    t.remaining_slice = t.remaining_slice.saturating_sub(1);
    if t.remaining_slice == 0 {
        t.remaining_slice = t.time_slice;
    }
    t
}

#[tactic(auto, using(crate::proofs::Laws::walking_semaphore, crate::proofs::Laws::walking_event, crate::proofs::Laws::walking_charge))]
fn ticked(mut k: Kernel) -> Answer
    requires { (whole k ≡ true) × (k.tick_count < 2 ^ 64 - 1) }
    ensures { result ≡ accepted (value k tick) (effect k tick) }
{
    let now = k.tick_count + 1;
    let mut woke = false;
    for i in 0..Kernel::MAX_TASKS {
        let t = k.tasks[i];
        if is_limit_due(t, now) {
            woke = true;
            match t.limit_object {
                LimitObject::NoLimit => {},
                LimitObject::AtSemaphore(s) => {
                    let s = usize::from(s);
                    k.semaphores[s].waiters = leaf_queue::removed(k.semaphores[s].waiters, t.id);
                },
                LimitObject::AtEvent(e) => {
                    let e = usize::from(e);
                    k.events[e].waiters = leaf_queue::removed(k.events[e].waiters, t.id);
                },
            }
            k.tasks[i] = t.expired();
        } else if is_due(t, now) {
            woke = true;
            k.tasks[i] = t.entered(TaskState::Ready);
        }
    }
    k.tick_count = now;
    if !k.started {
        return answer::accepted(Value::YesNo(false), k);
    }
    let i = k.current.0;
    k.charges[i] += 1;
    let t = k.tasks[i];
    if !t.is_running() {
        return answer::accepted(Value::YesNo(true), k);
    }
    k.tasks[i] = spent(t);
    let wanted = woke | (t.remaining_slice <= 1);
    answer::accepted(Value::YesNo(wanted), k)
}

pub fn update_tick(k: Kernel) -> Answer
    ensures { result ≡ step k tick }
{
    internal::update_tick(k, false)
}
