// A line of the notation of `turns` or `tables`, and the frame that it writes: operation, k and y.
#![tactic(auto)]

ghost use Rattle.std.specs.Prelude.{◌≡◌, ◌<◌, IfSome, get_or};
ghost use Rattle.line_frame.specs.Frame.{empty_line, digit, byte_of, written, operations, operation_of, uses_k, uses_y, in_range, y_of, operands_fit, frame_of};

// The operations in the order of their numbers: 0x01 to 0x14, which `turns` has, and 0x15, 0x16, 0x18 and 0x1b to 0x1f, which `tables` has too.
#[derive(Clone, Copy)]
pub enum Operation {
    Add,
    Start,
    Tick,
    Switch,
    Exit,
    Wait,
    Reap,
    Sleep,
    Wake,
    Lock,
    Unlock,
    TryLock,
    Acquire,
    TryAcquire,
    Release,
    EventWait,
    Signal,
    Status,
    Block,
    ReapOne,
    AcquireWithin,
    EventWaitWithin,
    TicksToMs,
    List,
    CurrentId,
    Result,
    Word,
    Init,
}

#[derive(Clone, Copy)]
pub struct Frame {
    pub operation: Operation,
    pub k: u8,
    pub y: u32,
}

// A line so far: its first twelve bytes, and how many there are; 13 stands for more than twelve.
#[derive(Clone, Copy)]
pub struct Line {
    pub bytes: [u8; Line::ROOM],
    pub len: usize,
}

// The last operation of `turns`.
const REAP_ONE: u8 = 0x14;

const TICKS_TO_MS: u8 = 0x18;

const WORD: u8 = 0x1e;

// Of the largest power of two that ticks are written with.
const LAST_EXPONENT: u8 = 32;

// The last word of the programs' arena.
const LAST_WORD: u32 = 4095;

// No `char::to_digit`, which takes capital letters too.
#[tactic(auto, using(base::proofs::Choices::taken, base::proofs::Choices::left, base::proofs::Choices::tests), unfolding(crate::specs::Frame::digit))]
fn digit(b: u8) -> Option<u8>
    ensures value { result ≡ digit b }
    ensures below { IfSome result (λ d. d < 16) }
{
    match b {
        b'0'..=b'9' => Some(b - b'0'),
        b'a'..=b'f' => Some(b - b'a' + 10),
        _ => None,
    }
}

#[tactic(auto, unfolding(crate::specs::Frame::byte_of))]
fn byte_of(high: u8, low: u8) -> Option<u8>
    ensures { result ≡ byte_of high low }
{
    Some(16 * digit(high)? + digit(low)?)
}

fn uses_k(operation: u8) -> bool
    ensures { result ≡ uses_k operation }
{
    matches!(
        operation,
        0x01 | 0x0a..=0x12 | 0x15 | 0x16 | 0x18 | 0x1b | 0x1d | 0x1e
    )
}

fn uses_y(operation: u8) -> bool
    ensures { result ≡ uses_y operation }
{
    matches!(
        operation,
        0x01 | 0x04 | 0x06..=0x09 | 0x15 | 0x16 | 0x18 | 0x1d..=0x1f
    )
}

#[tactic(auto, unfolding(crate::specs::Frame::in_range))]
fn in_range(operation: u8, k: u8, y: u32) -> bool
    ensures { result ≡ in_range operation k y }
{
    match operation {
        TICKS_TO_MS => k <= LAST_EXPONENT,
        WORD => k <= 1 && y <= LAST_WORD,
        _ => true,
    }
}

// Whether each operand that the operation does not use is 0, and those of ticks and of a word are in range.
#[tactic(auto, unfolding(base::specs::Choice::every, crate::specs::Frame::operands_fit, crate::specs::Frame::k_fits, crate::specs::Frame::y_fits))]
fn operands_fit(operation: u8, k: u8, y: u32) -> bool
    ensures { result ≡ operands_fit operation k y }
{
    (k == 0 || uses_k(operation)) && (y == 0 || uses_y(operation)) && in_range(operation, k, y)
}

impl Operation {
    fn numbered(n: u8) -> Option<Self>
        ensures { result ≡ get_or operations n None }
    {
        match n {
            0x01 => Some(Operation::Add),
            0x02 => Some(Operation::Start),
            0x03 => Some(Operation::Tick),
            0x04 => Some(Operation::Switch),
            0x05 => Some(Operation::Exit),
            0x06 => Some(Operation::Wait),
            0x07 => Some(Operation::Reap),
            0x08 => Some(Operation::Sleep),
            0x09 => Some(Operation::Wake),
            0x0a => Some(Operation::Lock),
            0x0b => Some(Operation::Unlock),
            0x0c => Some(Operation::TryLock),
            0x0d => Some(Operation::Acquire),
            0x0e => Some(Operation::TryAcquire),
            0x0f => Some(Operation::Release),
            0x10 => Some(Operation::EventWait),
            0x11 => Some(Operation::Signal),
            0x12 => Some(Operation::Status),
            0x13 => Some(Operation::Block),
            0x14 => Some(Operation::ReapOne),
            0x15 => Some(Operation::AcquireWithin),
            0x16 => Some(Operation::EventWaitWithin),
            0x18 => Some(Operation::TicksToMs),
            0x1b => Some(Operation::List),
            0x1c => Some(Operation::CurrentId),
            0x1d => Some(Operation::Result),
            0x1e => Some(Operation::Word),
            0x1f => Some(Operation::Init),
            _ => None,
        }
    }

    // In the notation of `tables`, or of `turns`.
    #[tactic(auto, using(base::proofs::Choices::taken, base::proofs::Choices::left, base::proofs::Choices::tests), unfolding(crate::specs::Frame::operation_of))]
    fn of(tables: bool, n: u8) -> Option<Self>
        ensures { result ≡ operation_of tables n }
    {
        if tables || n <= REAP_ONE {
            Operation::numbered(n)
        } else {
            None
        }
    }
}

impl Line {
    pub const ROOM: usize = 12;
    // The length that stands for any above.
    pub const TOO_LONG: usize = 13;

    pub fn empty() -> Self
        ensures { result ≡ empty_line }
    {
        Line {
            bytes: [0; Line::ROOM],
            len: 0,
        }
    }

    // The six bytes that its twelve digits write.
    #[tactic(auto, using(base::proofs::Choices::taken, base::proofs::Choices::left, base::proofs::Choices::tests), unfolding(crate::specs::Frame::written))]
    fn written(self) -> Option<[u8; 6]>
        ensures { result ≡ written self }
    {
        if self.len != Line::ROOM {
            return None;
        }
        let d = self.bytes;
        Some([
            byte_of(d[0], d[1])?,
            byte_of(d[2], d[3])?,
            byte_of(d[4], d[5])?,
            byte_of(d[6], d[7])?,
            byte_of(d[8], d[9])?,
            byte_of(d[10], d[11])?,
        ])
    }

    // In the notation of `tables`, or of `turns`.
    #[tactic(auto, using(base::proofs::Choices::taken, base::proofs::Choices::left, base::proofs::Choices::tests), unfolding(crate::specs::Frame::frame_of, crate::specs::Frame::framed))]
    pub fn frame(self, tables: bool) -> Option<Frame>
        ensures { result ≡ frame_of tables self }
    {
        let [number, k, a, b, c, d] = self.written()?;
        let y = u32::from_be_bytes([a, b, c, d]);
        if !operands_fit(number, k, y) {
            return None;
        }
        let operation = Operation::of(tables, number)?;
        Some(Frame { operation, k, y })
    }
}
