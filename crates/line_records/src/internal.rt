// What a text grows by; the room for it is asked of the caller.
ghost use Rattle.std.specs.Prelude.{◌≤◌, length};
ghost use Rattle.line_text.specs.Text.{Room, Puts};
ghost use Rattle.line_records.specs.RecordsText.{info_text, list_text};

use kernel::control::TaskInfo;
use line_objects::internal::put_between;
use line_table::internal::put_field;
use line_text::Text;

fn put_info(out: &mut Text, info: &TaskInfo)
    requires { Room 104 out.old }
    ensures { Puts 104 out.old (info_text info.now) out.new }
{
    out.put_decimal(info.id.0 as u64);
    put_field(out, info.state.number() as u64);
    put_field(out, info.priority.0 as u64);
    put_field(out, info.stack_used as u64);
    put_field(out, info.stack_total as u64);
}

// What an accepted list call adds to its answer.
pub fn put_list(out: &mut Text, records: &[TaskInfo])
    requires { Room 1681 out.old × (length records.now ≤ 16) }
    ensures { Puts 1681 out.old (list_text (length records.now) records.now) out.new }
{
    out.put(b' ');
    for (i, info) in records.iter().enumerate() {
        put_between(out, 0 < i, b';');
        put_info(out, info);
    }
}
