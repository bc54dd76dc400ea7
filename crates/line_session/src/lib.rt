// The work of the programs `turns` and `tables`: input in chunks, and what is printed for it.
#![tactic(auto)]

ghost use Rattle.std.specs.Prelude.{◌≡◌, length};
ghost use Rattle.kernel.specs.Calls.{init_words};
ghost use Rattle.line_session.specs.Session.{opened};

use kernel::scheduler::Kernel;
use line_frame::Line;

pub mod internal;

#[derive(Clone, Copy)]
pub struct Session {
    pub kernel: Kernel,
    pub line: Line,
}

impl Session {
    pub const ARENA_WORDS: usize = 4096;

    pub const HZ: u32 = 1000;

    // An answer's line, with its line feed.
    pub const ANSWER_BYTES: usize = 13;

    // At most so many bytes stand between an answer's digits and its line feed.
    pub const ADDED_BYTES: usize = 1681;
}

// The session after some input, and how many bytes were written.
#[derive(Clone, Copy)]
pub struct Played {
    pub session: Session,
    pub len: usize,
}

pub fn open(arena: &mut [u32]) -> Session
    ensures { (result ≡ opened (length arena.old)) × (arena.new ≡ init_words 1000 arena.old) }
{
    let a = call_init::init(Session::HZ, arena);
    let kernel = a.kernel;
    let line = Line::empty();
    Session { kernel, line }
}
