// A fresh kernel: `init` of the source.
#![tactic(auto)]

ghost use Rattle.std.specs.Prelude.{◌≡◌, length};
ghost use Rattle.kernel.specs.Kernel.{idle_task, fresh_kernel};
ghost use Rattle.kernel.specs.Refusal.{number_of};
ghost use Rattle.kernel.specs.Calls.{init_number, init, init_words};

use kernel::control::{Priority, StackRegion, TaskControl, TaskId};
use kernel::scheduler::{Answer, Kernel, Refusal, Value};
use leaf_table::internal::answer;

fn idle_stack() -> StackRegion
    ensures { result ≡ record { start = 0; size = 8192 } }
{
    StackRegion {
        start: 0,
        size: Kernel::IDLE_STACK_SIZE,
    }
}

fn idle_task() -> TaskControl
    ensures { result ≡ idle_task }
{
    TaskControl::new(TaskId(0), Priority(u8::MAX), idle_stack()).with_time_slice(1)
}

#[tactic(auto, unfolding(kernel::specs::Kernel::fresh_kernel, kernel::specs::Kernel::blank_kernel))]
fn fresh_kernel(hz: u32, words: u32) -> Kernel
    ensures { result ≡ fresh_kernel hz words }
{
    let mut k = Kernel::blank();
    k.tasks[0] = idle_task();
    k.arena_words = words;
    k.hz = hz;
    k.task_count = 1;
    k.next_id = 1;
    k
}

#[tactic(auto, using(base::proofs::Choices::taken, base::proofs::Choices::left, base::proofs::Choices::tests), unfolding(kernel::specs::Calls::init_number))]
fn check_init(hz: u32, words: usize) -> Result<(), Refusal>
    ensures { number_of result ≡ init_number hz words }
{
    if !leaf_whole::internal::arena_fits(words) {
        return Err(Refusal::NotWhole);
    }
    if hz == 0 {
        return Err(Refusal::UnfitOperand);
    }
    Ok(())
}

// Idle in slot 0, and its region painted. Refused: 1, an arena of fewer than 2,048 or more than 16,384 words; 7, hz 0.
pub fn init(hz: u32, arena: &mut [u32]) -> Answer
    ensures { (result ≡ init hz (length arena.old)) × (arena.new ≡ init_words hz arena.old) }
{
    let words = arena.len();
    if let Err(refusal) = check_init(hz, words) {
        return answer::refused_by(refusal, Kernel::blank());
    }
    leaf_stack::internal::paint_region(arena, idle_stack());
    answer::accepted(Value::Nothing, fresh_kernel(hz, words as u32))
}
