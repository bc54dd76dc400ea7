// What the programs `turns` and `tables` share: their arguments, reading and writing.
#![tactic(auto)]

ghost use Rattle.std.specs.Prelude.{◌≡◌, ◌*◌, ◌≤◌, ◌<◌};
ghost use Rattle.line_session.specs.Session.{reply_room};
ghost use Rattle.line_program.specs.Program.{has_table};

use line_session::Session;
use std::env::{Env, FillError};
use std::io::{self, Read};

// Which of the two it is.
#[derive(Clone, Copy)]
pub enum Program {
    Turns,
    Tables,
}

// What a line is, and the operations.
const CALLS: &[u8] =
    b"A call is a line of 12 lowercase hex digits: operation (2), k (2), y (8); what an operation does not use is 0.
  01 add, k priority, y start * 65536 + size    02 start   03 tick   04 switch, y sp   05 exit
  06 wait for id y   07 reap id y   08 sleep y ms   09 wake id y   12 status k   13 block   14 reap one
  0a lock mutex k   0b unlock k   0c try lock k   0d acquire semaphore k   0e try acquire k   0f release k
  10 wait for event k   11 signal k
";

const STATES: &[u8] =
    b"States: 0 Ready, 1 Running, 2 Blocked, 3 Sleeping, 4 Suspended, 5 Terminated.\n";

// What an answer is, and the refusals that a list can meet.
const ANSWERS: &[u8] =
    b"An answer is 12 hex digits: number (2), value (8), current slot (2). Number 00 is accepted. With any other, here in hex
as it is printed, the value is 0 and nothing is changed:
  ff no call: not 12 such digits, no such operation, or an operand above 0 that is not used
  02 not started   03 started already   04 no empty slot   06 no id is left   08 no task has that id   14 object above 3
  05 start or size no multiple of 4, size under 16, past the arena, or over another task's stack
  07 status 1, 5 or above; wait for oneself   09 wait: another waits for it; reap: slot 0, current or not Terminated
  0a exit in slot 0   0b exit owning a mutex   0c eight others are queued   0d current has it already   0e not its owner
  10 sp not in current's stack   12 ticks at 2^64 - 1   13 count at 2^32 - 1
";

// On standard error, whose own failure nothing can say.
fn say(rt: &HostRuntime, text: &[u8]) {
    let _ = rt.stderr().write_all(text);
}

// On standard output; if that fails, standard error says so.
fn write(rt: &HostRuntime, text: &[u8]) -> io::Result<()> {
    rt.stdout()
        .write_all(text)
        .inspect_err(|_| say(rt, b"standard output: a write failed\n"))
}

// Whether there is an argument i; argument 0 is the program's name.
fn has_argument(rt: &HostRuntime, i: usize) -> bool {
    let mut word = [0u8; 1];
    !matches!(rt.arg(i, &mut word), Err(FillError::NotPresent))
}

// Whether the first argument is `--help`.
fn first_is_help(rt: &HostRuntime) -> bool {
    let mut word = [0u8; 8];
    match rt.arg(1, &mut word) {
        Ok(n) => &word[..n] == b"--help".as_slice(),
        Err(_) => false,
    }
}

// Argument i on standard error, byte for byte; of one longer than 64 bytes the first 64, and `..`.
fn say_argument(rt: &HostRuntime, i: usize) {
    let mut word = [0u8; 64];
    match rt.arg(i, &mut word) {
        Ok(n) => say(rt, &word[..n]),
        // Of one that is too long the first bytes are there.
        Err(FillError::TooLong) => {
            say(rt, &word);
            say(rt, b"..");
        },
        Err(FillError::NotPresent) => {},
    }
}

impl Program {
    fn name(self) -> &'static str {
        match self {
            Program::Turns => "turns",
            Program::Tables => "tables",
        }
    }

    // Whether it has the notation of `tables`, and prints the table.
    fn has_table(self) -> bool
        ensures { result ≡ has_table self }
    {
        match self {
            Program::Turns => false,
            Program::Tables => true,
        }
    }

    // How many bytes are read at a time: 4,096 × 13 and 6 × 10,356 bytes of replies have room in 65,536.
    #[tactic(auto, using(base::proofs::Choices::taken, base::proofs::Choices::left))]
    fn chunk_bytes(self) -> usize
        ensures { (reply_room (has_table self) * result ≤ 65536) × (result ≤ 4096) × (0 < result) }
    {
        match self {
            Program::Turns => 4096,
            Program::Tables => 6,
        }
    }

    fn usage(self) -> &'static [u8] {
        match self {
            Program::Turns => b"usage: turns <LIST
Plays the calls on standard input on a fresh kernel, hz 1000, 4096 words; prints an answer for each.
",
            Program::Tables => b"usage: tables <LIST
Plays the calls on standard input on a fresh kernel, hz 1000, 4096 words; prints an answer and the table for each.
",
        }
    }

    // The operations that `turns` has not.
    fn more_calls(self) -> &'static [u8] {
        match self {
            Program::Turns => b"",
            Program::Tables =>
                b"  15 acquire semaphore k   16 wait for event k, both for y ticks at most   18 milliseconds from y * 2^k ticks
  1b list, k records lent   1c current id   1d result k, a signed byte, of id y   1f fresh, y hz
  1e no call: word y of the arena becomes 0, or for k 1 the paint
",
        }
    }

    fn more_answers(self) -> &'static [u8] {
        match self {
            Program::Turns => b"",
            Program::Tables =>
                b"  07 too: a limit of 0; hz 0   ff too: 18 with k above 20 (32); 1e with k above 1 or y above fff
  11 guard words of current's stack not painted   15 fewer records than tasks   17 milliseconds above 2^32 - 1
The records of a list stand behind its answer. The line after an answer is the whole table in decimal.
",
        }
    }

    // Plays the calls on standard input, to its end or a read or a write that fails.
    #[tactic(auto, using(line_session::proofs::Opened::opened_reached))]
    fn play_input(self, rt: &HostRuntime) -> io::Result<()> {
        let tables = self.has_table();
        let chunk = self.chunk_bytes();
        let mut arena = [0u32; Session::ARENA_WORDS];
        let mut input = [0u8; 4096];
        let mut out = [0u8; 65536];
        let mut session = line_session::open(&mut arena);
        let mut end = Ok(());
        // Counted so that the loop ends; no input takes that many reads.
        for _ in 0..u64::MAX {
            match rt.stdin().read(&mut input[..chunk]) {
                Ok(0) => break,
                Ok(n) => {
                    let p = line_session::internal::play(
                        session,
                        tables,
                        &input[..n],
                        &mut arena,
                        &mut out,
                    );
                    session = p.session;
                    write(rt, &out[..p.len])?;
                },
                Err(e) => {
                    end = Err(e);
                    break;
                },
            }
        }
        let p = line_session::internal::finish(session, tables, &mut arena, &mut out);
        let written = write(rt, &out[..p.len]);
        if end.is_err() {
            say(rt, b"standard input: a read failed\n");
        }
        written
    }

    fn say_unknown(self, rt: &HostRuntime, i: usize) {
        let _ = eprint!(rt; "{}: unknown argument '", self.name());
        say_argument(rt, i);
        say(rt, b"'; --help is the only one\n");
    }

    fn write_help(self, rt: &HostRuntime) -> io::Result<()> {
        write(rt, self.usage())?;
        write(rt, CALLS)?;
        write(rt, self.more_calls())?;
        write(rt, STATES)?;
        write(rt, ANSWERS)?;
        write(rt, self.more_answers())?;
        write(rt, b"README.md has the rest.\n")
    }

    // The program, whose exit status is 0 also where a write failed.
    pub fn run(self, rt: &HostRuntime) {
        if !has_argument(rt, 1) {
            let _ = self.play_input(rt);
        } else if !first_is_help(rt) {
            self.say_unknown(rt, 1);
        } else if has_argument(rt, 2) {
            self.say_unknown(rt, 2);
        } else {
            let _ = self.write_help(rt);
        }
    }
}
