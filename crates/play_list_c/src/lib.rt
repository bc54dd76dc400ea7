// A whole list of lines at once, for C and Rust to link (include/tibsulan.h).
#![tactic(auto)]

ghost use Rattle.std.specs.Prelude.{◌≤◌, length};
ghost use Rattle.play_list.specs.PlayList.{PlaysList};

// A whole list of lines from fresh, answered as `turns` answers it. The answers stand at the start of `out`; their length is
// returned. `out` needs 13 bytes for each byte of the list and 13 more; where it has fewer, 0 is returned and nothing is altered. The two
// must not overlap.
#[unsafe(no_mangle)]
pub extern "C" fn tibsulan_play_list(list: &[u8], out: &mut [u8]) -> usize
    ensures plays_list { PlaysList list.now out.old out.new result }
    ensures short { result ≤ length out.new }
{
    play_list::tibsulan_play_list(list, out)
}
