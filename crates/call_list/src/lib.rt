// The list call: sched/scheduler.rs of the source.
#![tactic(auto)]

ghost use Rattle.std.specs.Prelude.{◌≡◌, true, ◌++◌, ◌+◌, ◌-◌, ◌/◌, ◌<◌, ◌≤◌, min, eqb, length, get_or, take, drop, replicate};
ghost use Rattle.base.specs.Choice.{if◌then◌otherwise◌};
ghost use Rattle.kernel.specs.Control.{stack_used};
ghost use Rattle.kernel.specs.Kernel.{whole};
ghost use Rattle.kernel.specs.Refusal.{number_of};
ghost use Rattle.kernel.specs.Calls.{list, task_info, task_infos, step, list_records};
ghost use Rattle.call_list.specs.Records.{blank_info, NumberFor};

use kernel::control::{Priority, StackRegion, TaskControl, TaskId, TaskInfo, TaskState};
use kernel::scheduler::{Answer, Kernel, Refusal, Value};
use leaf_table::internal::answer;

fn blanks() -> [TaskInfo; Kernel::MAX_TASKS]
    ensures { result ≡ replicate 16 blank_info }
{
    let blank = TaskInfo {
        id: TaskId(0),
        state: TaskState::Ready,
        priority: Priority(0),
        stack_used: 0,
        stack_total: 0,
    };
    [blank; Kernel::MAX_TASKS]
}

// Size less 4 for each leading painted word.
fn stack_used(region: StackRegion, arena: &[u32]) -> u32
    requires { region.start / 4 + region.size / 4 ≤ length arena.now }
    ensures { result ≡ stack_used region arena.now }
{
    let start = (region.start / StackRegion::WORD_SIZE) as usize;
    let end = start + (region.size / StackRegion::WORD_SIZE) as usize;
    let painted = leaf_stack::count_prefix(&arena[start..end]);
    region.size - StackRegion::WORD_SIZE * (painted as u32)
}

fn task_info(t: TaskControl, arena: &[u32]) -> TaskInfo
    requires { t.stack.start / 4 + t.stack.size / 4 ≤ length arena.now }
    ensures { result ≡ task_info arena.now t }
{
    TaskInfo {
        id: t.id,
        state: t.state,
        priority: t.priority,
        stack_used: stack_used(t.stack, arena),
        stack_total: t.stack.size,
    }
}

fn check_list(k: &Kernel, arena: &[u32], room: usize) -> Result<(), Refusal>
    ensures { NumberFor k.now arena.now room (number_of result) }
{
    leaf_whole::internal::check(k, false)?;
    if arena.len() != k.arena_words as usize {
        return Err(Refusal::NotWhole);
    }
    if room < k.task_count as usize {
        return Err(Refusal::FewRecords);
    }
    Ok(())
}

// A record of each task, in slot order; the later records are kept.
fn write_records(k: Kernel, arena: &[u32], records: &mut [TaskInfo])
    requires { (whole k ≡ true) × (length arena.now ≡ k.arena_words) × (k.task_count ≤ length records.old) }
    ensures { records.new ≡ task_infos k arena.now 16 ++ drop (length (task_infos k arena.now 16)) records.old }
{
    let mut n = 0;
    for t in &k.tasks {
        if t.occupied {
            records[n] = task_info(*t, arena);
            n += 1;
        }
    }
}

// Writes a record of each task into the records that are lent. Refused: 1 and 21.
pub fn tasks(k: Kernel, arena: &[u32], records: &mut [TaskInfo]) -> Answer
    ensures { (result ≡ step k (list arena.now records.old)) × (records.new ≡ list_records k arena.now records.old) }
{
    if let Err(refusal) = check_list(&k, arena, records.len()) {
        return answer::refused_by(refusal, k);
    }
    write_records(k, arena, records);
    answer::accepted(Value::Count(k.task_count as usize), k)
}

// The answer of a list call, and the records that it was made on.
#[derive(Clone, Copy)]
pub struct Listed {
    pub answer: Answer,
    pub records: [TaskInfo; Kernel::MAX_TASKS],
}

// The first `n` of sixteen blank records are lent.
fn list_in(k: Kernel, arena: &[u32], n: usize) -> Listed
    requires { n ≤ 16 }
    ensures { (result.answer ≡ step k (list arena.now (replicate n blank_info))) × (result.records ≡ list_records k arena.now (replicate n blank_info) ++ replicate (16 - n) blank_info) }
{
    let mut records = blanks();
    let answer = tasks(k, arena, &mut records[..n]);
    Listed { answer, records }
}

// A list call on `room` blank records, sixteen where `room` is more; the records after them are blank.
pub fn list_up_to(k: Kernel, arena: &[u32], room: usize) -> Listed
    ensures { (result.answer ≡ step k (list arena.now (replicate (min room 16) blank_info))) × (result.records ≡ list_records k arena.now (replicate (min room 16) blank_info) ++ replicate (16 - min room 16) blank_info) }
{
    list_in(k, arena, room.min(Kernel::MAX_TASKS))
}
