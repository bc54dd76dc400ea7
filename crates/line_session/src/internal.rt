// Playing input on a kernel from fresh, with room for the replies: both are asked of the caller. `tables` says which notation is played, and whether the table follows each answer.
// A kernel from fresh is whole: `known` says that this need not be checked again, and is false only up to the first line of some input that is a call.
ghost use Rattle.std.specs.Prelude.{◌≡◌, ◌+◌, ◌*◌, ◌≤◌, length};
ghost use Rattle.kernel.specs.Calls.{Reached};
ghost use Rattle.line_frame.specs.Frame.{frame_of};
ghost use Rattle.line_text.specs.Text.{Room, Puts};
ghost use Rattle.line_dispatch.specs.Dispatch.{answer_to, words_after, added_to};
ghost use Rattle.line_session.specs.Session.{reply, reply_room, Plays, rest};

use crate::{Played, Session};
use kernel::scheduler::{Answer, Kernel};
use line_frame::Line;
use line_text::Text;

// A function of its own would have the kernel copied to it.
#[inline(always)]
fn put_reply(tables: bool, a: Answer, added: &[u8], out: &mut Text)
    requires { Room (reply_room tables) out.old × (length added.now ≤ 1681) }
    ensures { Puts (reply_room tables) out.old (reply tables a added.now) out.new }
{
    let number = line_answer::value_number(a.value);
    line_answer::internal::put_answer(out, a.number, number, a.kernel.current);
    if tables {
        out.put_text(added);
        out.put(b'\n');
        line_table::internal::put_table(out, a.kernel);
    } else {
        out.put(b'\n');
    }
}

// The kernel after a line; its reply is put into `out`. `added` is for what the line adds to its answer.
fn end_line(
    k: Kernel,
    known: &mut bool,
    line: Line,
    tables: bool,
    arena: &mut [u32],
    added: &mut [u8],
    out: &mut Text,
) -> Kernel
    requires { Room (reply_room tables) out.old × Reached k × (1681 ≤ length added.old) }
    ensures value { (result ≡ (answer_to k arena.old (frame_of tables line)).kernel) × (arena.new ≡ words_after k arena.old (frame_of tables line)) × Puts (reply_room tables) out.old (reply tables (answer_to k arena.old (frame_of tables line)) (added_to k arena.old (frame_of tables line))) out.new }
    ensures reached { Reached result }
{
    let Some(f) = line.frame(tables) else {
        put_reply(tables, line_dispatch::internal::no_call(k), &[], out);
        return k;
    };
    let mut adds = Text { out: added, at: 0 };
    let a = line_dispatch::internal::dispatch(k, *known, f, arena, &mut adds);
    *known = true;
    let Text {
        out: added,
        at: len,
    } = adds;
    let kernel = a.kernel;
    put_reply(tables, a, &added[..len], out);
    kernel
}

pub fn play(s: Session, tables: bool, input: &[u8], arena: &mut [u32], out: &mut [u8]) -> Played
    requires { (reply_room tables * length input.now ≤ length out.old) × Reached s.kernel }
    ensures plays { Plays tables s arena.old input.now arena.new out.old out.new result }
    ensures short { result.len ≤ length out.new }
    ensures reached { Reached result.session.kernel }
{
    let mut kernel = s.kernel;
    let mut known = false;
    let line = s.line;
    let mut bytes = line.bytes;
    let mut len = line.len;
    let mut added = [0u8; Session::ADDED_BYTES];
    let mut text = Text { out, at: 0 };
    for i in 0..input.len() {
        let b = input[i];
        if b == b'\n' {
            let line = Line { bytes, len };
            kernel = end_line(
                kernel, &mut known, line, tables, arena, &mut added, &mut text,
            );
            bytes = [0; Line::ROOM];
            len = 0;
        } else if len < Line::ROOM {
            bytes[len] = b;
            len = len + 1;
        } else {
            len = Line::TOO_LONG;
        }
    }
    let line = Line { bytes, len };
    let session = Session { kernel, line };
    Played {
        session,
        len: text.at,
    }
}

// The end of the input: a rest without a line feed is answered.
pub fn finish(s: Session, tables: bool, arena: &mut [u32], out: &mut [u8]) -> Played
    requires { (reply_room tables ≤ length out.old) × Reached s.kernel }
    ensures plays { Plays tables s arena.old (rest s) arena.new out.old out.new result }
    ensures short { result.len ≤ length out.new }
    ensures reached { Reached result.session.kernel }
{
    let line = s.line;
    if line.len == 0 {
        return Played { session: s, len: 0 };
    }
    let kernel = s.kernel;
    let mut known = false;
    let mut added = [0u8; Session::ADDED_BYTES];
    let mut text = Text { out, at: 0 };
    let kernel = end_line(
        kernel, &mut known, line, tables, arena, &mut added, &mut text,
    );
    let line = Line::empty();
    let session = Session { kernel, line };
    Played {
        session,
        len: text.at,
    }
}
