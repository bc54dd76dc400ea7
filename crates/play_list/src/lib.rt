// A whole list of lines at once, which crate play_list_c exports for C.
#![tactic(auto)]

ghost use Rattle.std.specs.Prelude.{◌≤◌, false, length};
ghost use Rattle.line_text.specs.Text.{Writes};
ghost use Rattle.line_session.specs.Session.{printed};
ghost use Rattle.play_list.specs.PlayList.{list_room, PlaysList};

use line_session::Session;

// The list from fresh, then its end.
fn play_all(list: &[u8], out: &mut [u8]) -> usize
    requires { list_room list.now ≤ length out.old }
    ensures writes { Writes out.old 0 (printed false list.now) out.new result }
    ensures short { result ≤ length out.new }
{
    let mut arena = [0u32; Session::ARENA_WORDS];
    let opened = line_session::open(&mut arena);
    let played = line_session::internal::play(opened, false, list, &mut arena, out);
    let rest = &mut out[played.len..];
    let finished = line_session::internal::finish(played.session, false, &mut arena, rest);
    played.len + finished.len
}

// A whole list of lines from fresh, answered as `turns` answers it. The answers stand at the start of `out`; their length is
// returned. `out` needs 13 bytes for each byte of the list and 13 more; where it has fewer, 0 is returned and nothing is altered.
pub fn tibsulan_play_list(list: &[u8], out: &mut [u8]) -> usize
    ensures plays_list { PlaysList list.now out.old out.new result }
    ensures short { result ≤ length out.new }
{
    if out.len() / Session::ANSWER_BYTES <= list.len() {
        return 0;
    }
    play_all(list, out)
}
