// A frame played on a kernel. Where `known` is true the caller knows that the kernel is whole, so it is not looked at again.
ghost use Rattle.std.specs.Prelude.{◌≡◌, true, ◌||◌, not, ◌+◌, ◌≤◌, eqb, length, set, Some};
ghost use Rattle.base.specs.Choice.{if◌then◌otherwise◌};
ghost use Rattle.kernel.specs.Kernel.{whole};
ghost use Rattle.kernel.specs.Calls;
ghost use Rattle.kernel.specs.Calls.{refused, current_id, acquire_within, event_wait_within, ticks_to_ms, step, init_words};
ghost use Rattle.line_text.specs.Text.{Room, Puts};
ghost use Rattle.line_dispatch.specs.Dispatch.{id_of, signed_byte, word_of, ticks_of, fresh_for, list_answer, list_adds, answer_to, words_after, added_to};

use kernel::control::{Priority, StackRegion, TaskControl, TaskId};
use kernel::scheduler::{Answer, Kernel, Value};
use leaf_table::internal::answer;
use line_frame::{Frame, Operation};
use line_text::Text;

// What stands for the number where a line asks for no call.
const NO_CALL: u8 = 255;

// A signed byte.
fn signed(k: u8) -> i32
    ensures { result ≡ signed_byte k }
{
    if k < 128 {
        return k as i32;
    }
    k as i32 - 256
}

// What a word becomes.
fn word_of(k: u8) -> u32
    ensures { result ≡ word_of k }
{
    if k == 0 { 0 } else { TaskControl::STACK_MAGIC }
}

fn set_word(arena: &mut [u32], at: usize, word: u32)
    ensures { arena.new ≡ set arena.old at word }
{
    if at < arena.len() {
        arena[at] = word;
    }
}

// A fresh kernel takes the place of k, unless it is refused.
fn init(k: Kernel, hz: u32, arena: &mut [u32]) -> Answer
    ensures { (result ≡ fresh_for k hz (length arena.old)) × (arena.new ≡ init_words hz arena.old) }
{
    let a = call_init::init(hz, arena);
    if a.number != 0 {
        return Answer {
            number: a.number,
            value: Value::Nothing,
            kernel: k,
        };
    }
    a
}

// A list call on that many records; what it adds to its answer is written into `out`.
#[inline(never)]
fn list(k: Kernel, room: usize, arena: &[u32], out: &mut Text) -> Answer
    requires { Room 1681 out.old }
    ensures { (result ≡ list_answer k arena.now room) × Puts 1681 out.old (list_adds k arena.now room) out.new }
{
    let listed = call_list::list_up_to(k, arena, room);
    let answer = listed.answer;
    if answer.number == 0 {
        let records = &listed.records[..k.task_count as usize];
        line_records::internal::put_list(out, records);
    }
    answer
}

// Of y × 2^k ticks. Its division stays out of the function that start and switch are taken into.
#[inline(never)]
fn ticks_to_ms(kernel: Kernel, k: u8, y: u32) -> Answer
    ensures { result ≡ step kernel (ticks_to_ms (ticks_of k y)) }
{
    call_timer::ticks_to_ms(kernel, u64::from(y) << k.min(32))
}

// What is answered to a line that is none of the notation.
pub fn no_call(k: Kernel) -> Answer
    ensures { result ≡ refused 0xff k }
{
    answer::refused(NO_CALL, k)
}

// What the line adds to its answer is put into `out`.
pub fn dispatch(k: Kernel, known: bool, f: Frame, arena: &mut [u32], out: &mut Text) -> Answer
    requires { ((not known || whole k) ≡ true) × Room 1681 out.old }
    ensures { (result ≡ answer_to k arena.old (Some f)) × (arena.new ≡ words_after k arena.old (Some f)) × Puts 1681 out.old (added_to k arena.old (Some f)) out.new }
{
    let id = TaskId(f.y);
    let object = f.k as usize;
    match f.operation {
        Operation::Add => {
            let priority = Priority(f.k);
            let region = StackRegion {
                start: f.y / 0x1_0000,
                size: f.y % 0x1_0000,
            };
            call_add::internal::add_task(k, known, priority, region, arena)
        },
        Operation::Start => call_start::internal::start(k, known),
        Operation::Tick => call_tick::internal::update_tick(k, known),
        Operation::Switch => call_switch::internal::switch(k, known, f.y, arena),
        Operation::Exit => call_exit::internal::exit_current_task(k, known),
        Operation::Wait => call_wait::internal::wait_task(k, known, id),
        Operation::Reap => call_reap::internal::reap_task(k, known, id),
        Operation::Sleep => {
            let ticks = leaf_timer::ms_to_ticks(f.y, k.hz);
            call_status::internal::current_task_sleep_ticks(k, known, ticks)
        },
        Operation::Wake => call_wake::internal::wake_task(k, known, id),
        Operation::Lock => call_lock::internal::lock(k, known, object),
        Operation::Unlock => call_unlock::internal::unlock(k, known, object),
        Operation::TryLock => call_try_lock::internal::try_lock(k, known, object),
        Operation::Acquire => call_acquire::internal::acquire(k, known, object),
        Operation::TryAcquire => call_acquire::internal::try_acquire(k, known, object),
        Operation::Release => call_release::internal::release(k, known, object),
        Operation::EventWait => call_event_wait::internal::wait(k, known, object),
        Operation::Signal => call_signal::internal::signal(k, known, object),
        Operation::Status => call_status::internal::set_current_task_status(k, known, f.k),
        Operation::Block => call_status::internal::block_current_task(k, known),
        Operation::ReapOne => call_reap::internal::reap_one(k, known),
        Operation::List => list(k, object, arena, out),
        Operation::CurrentId => call_status::current_task_id(k),
        Operation::Result => call_wake::set_syscall_result(k, id, signed(f.k)),
        Operation::Word => {
            set_word(arena, f.y as usize, word_of(f.k));
            answer::accepted(Value::Nothing, k)
        },
        Operation::Init => init(k, f.y, arena),
        Operation::AcquireWithin => { call_acquire::acquire_within(k, object, u64::from(f.y)) },
        Operation::EventWaitWithin => { call_event_wait::wait_within(k, object, u64::from(f.y)) },
        Operation::TicksToMs => ticks_to_ms(k, f.k, f.y),
    }
}
