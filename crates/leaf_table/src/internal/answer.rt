// The two kinds of answer, and the answer of a wake.
ghost use Rattle.std.specs.Prelude.{◌≡◌, ltb, unwrap_or};
ghost use Rattle.base.specs.Choice.{if◌then◌otherwise◌};
ghost use Rattle.kernel.specs.Control.{entered};
ghost use Rattle.kernel.specs.Kernel.{at};
ghost use Rattle.kernel.specs.Refusal.{refusal_number};
ghost use Rattle.kernel.specs.Calls.{refused, accepted};

use kernel::control::TaskState;
use kernel::scheduler::{Answer, Kernel, Refusal, Value};

pub fn refused(number: u8, kernel: Kernel) -> Answer
    ensures { result ≡ refused number kernel }
{
    Answer {
        number,
        value: Value::Nothing,
        kernel,
    }
}

// With the refusal's number.
pub fn refused_by(refusal: Refusal, kernel: Kernel) -> Answer
    ensures { result ≡ refused (refusal_number refusal) kernel }
{
    refused(refusal.number(), kernel)
}

pub fn accepted(value: Value, kernel: Kernel) -> Answer
    ensures { result ≡ accepted value kernel }
{
    Answer {
        number: 0,
        value,
        kernel,
    }
}

// The task in that slot is made Ready, yes; without one, no.
pub fn woken(mut k: Kernel, slot: Option<usize>) -> Answer
    ensures { result ≡ accepted (Value.YesNo (ltb (unwrap_or slot 16) 16)) (if ltb (unwrap_or slot 16) 16 then at (unwrap_or slot 16) (entered TaskState.Ready) k otherwise k) }
{
    let i = slot.unwrap_or(Kernel::MAX_TASKS);
    if Kernel::MAX_TASKS <= i {
        return accepted(Value::YesNo(false), k);
    }
    k.tasks[i] = k.tasks[i].entered(TaskState::Ready);
    accepted(Value::YesNo(true), k)
}
