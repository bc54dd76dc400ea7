// Load per thousand: the share of a task in the ticks since the start, and the remainder.
#![tactic(auto)]

ghost use Rattle.std.specs.Prelude.{◌≡◌, IfOk, true, ◌+◌, ◌*◌, ◌≤◌, ◌<◌};
ghost use Rattle.kernel.specs.Kernel.{charge_sum, slot_of, whole};
ghost use Rattle.kernel.specs.Load.{IsLoad};
ghost use Rattle.kernel.specs.Refusal.{number_of};
ghost use Rattle.kernel.specs.Calls.{load, number, step};
ghost use Rattle.call_load.specs.Part.{amount, AmountsTo};

use kernel::control::TaskId;
use kernel::scheduler::{Answer, Kernel, Refusal, Value};
use leaf_table::internal::answer;

// So many times the ticks, and a remainder below them.
#[derive(Clone, Copy)]
struct Part {
    share: u32,
    remainder: u64,
}

// All charges and the retired sum.
#[tactic(auto, using(base::proofs::Loops::sum_start, base::proofs::Loops::sum_more))]
fn ticks_since_start(k: Kernel) -> u64
    requires { whole k ≡ true }
    ensures { result ≡ charge_sum k }
{
    let mut sum = k.retired_charge;
    for charge in k.charges {
        sum += charge;
    }
    sum
}

// With so many more, at most the ticks: the sum is compared with the ticks before it is formed.
#[tactic(auto, unfolding(crate::specs::Part::amount))]
fn plus(p: Part, more: u64, ticks: u64) -> Part
    requires { (p.remainder < ticks) × (more ≤ ticks) × (p.share ≤ 2000) }
    ensures { AmountsTo ticks (amount ticks p + more) (p.share + 1) result }
{
    let room = ticks - more;
    if p.remainder < room {
        return Part {
            share: p.share,
            remainder: p.remainder + more,
        };
    }
    Part {
        share: p.share + 1,
        remainder: p.remainder - room,
    }
}

#[tactic(auto, unfolding(crate::specs::Part::amount))]
fn twice(p: Part, ticks: u64) -> Part
    requires { (p.remainder < ticks) × (p.share ≤ 1000) }
    ensures { AmountsTo ticks (2 * amount ticks p) (2 * p.share + 1) result }
{
    let shares = Part {
        share: p.share + p.share,
        remainder: p.remainder,
    };
    plus(shares, p.remainder, ticks)
}

#[tactic(auto, unfolding(crate::specs::Part::amount))]
fn twice_and(p: Part, charge: u64, ticks: u64) -> Part
    requires { (p.remainder < ticks) × (charge ≤ ticks) × (p.share ≤ 900) }
    ensures { AmountsTo ticks (2 * amount ticks p + charge) (2 * p.share + 2) result }
{
    plus(twice(p, ticks), charge, ticks)
}

// 1000 × charge, place by place of 1000 in binary, 1111101000: each place doubles, and a 1 adds the charge. Neither the
// product nor a remainder of ticks or more is formed.
#[tactic(auto, unfolding(crate::specs::Part::amount))]
fn thousandfold(charge: u64, ticks: u64) -> Part
    requires { (0 < ticks) × (charge ≤ ticks) }
    ensures { IsLoad charge ticks result.share result.remainder }
{
    let none = Part {
        share: 0,
        remainder: 0,
    };
    let p1 = plus(none, charge, ticks);
    let p3 = twice_and(p1, charge, ticks);
    let p7 = twice_and(p3, charge, ticks);
    let p15 = twice_and(p7, charge, ticks);
    let p31 = twice_and(p15, charge, ticks);
    let p62 = twice(p31, ticks);
    let p125 = twice_and(p62, charge, ticks);
    let p250 = twice(p125, ticks);
    let p500 = twice(p250, ticks);
    twice(p500, ticks)
}

// The slot of the task, and the ticks since the start.
fn check_load(k: &Kernel, id: TaskId) -> Result<(usize, u64), Refusal>
    ensures number { number_of result ≡ number k.now (load id) }
    ensures found { IfOk result (λ r. (r.0 ≡ slot_of k.now id) × (r.1 ≡ charge_sum k.now)) }
{
    leaf_whole::internal::check(k, false)?;
    let i = leaf_table::internal::slot_of(k, id).ok_or(Refusal::UnknownId)?;
    let ticks = ticks_since_start(*k);
    if ticks == 0 {
        return Err(Refusal::NoTick);
    }
    Ok((i, ticks))
}

// In any state, started or not. Refused: 1, 8 and 24.
pub fn load(k: Kernel, id: TaskId) -> Answer
    ensures { result ≡ step k (load id) }
{
    match check_load(&k, id) {
        Err(refusal) => answer::refused_by(refusal, k),
        Ok((i, ticks)) => {
            let p = thousandfold(k.charges[i], ticks);
            answer::accepted(Value::Load(p.share, p.remainder), k)
        },
    }
}
