// The words of the arena under a task's stack: `fill_u32` and `count_prefix_u32` of the source's stack region.
#![tactic(auto)]

pub mod internal;

ghost use Rattle.std.specs.Prelude.{◌≡◌};
ghost use Rattle.kernel.specs.Control.{count_prefix};

use kernel::control::TaskControl;

// How many words are painted before the first that is not.
pub fn count_prefix(words: &[u32]) -> usize
    ensures { result ≡ count_prefix words.now }
{
    words
        .iter()
        .take_while(|w| **w == TaskControl::STACK_MAGIC)
        .count()
}
