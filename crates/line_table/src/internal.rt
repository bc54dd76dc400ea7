// What a text grows by; the room for it is asked of the caller.
ghost use Rattle.std.specs.Prelude.{ℕ, List, ◌+◌, ◌*◌};
ghost use Rattle.std.specs.Fmt.{signed_decimal};
ghost use Rattle.kernel.specs.declared.control.TaskControl.{TaskControl};
ghost use Rattle.line_text.specs.Text.{Room, Puts};
ghost use Rattle.line_table.specs.TableLine.{field, slot_text, occupied_text, scheduler_text, kept_text, limit_text, rank_text, ranks_text, table_line};

use kernel::control::{LimitObject, TaskControl};
use kernel::scheduler::Kernel;
use line_objects::internal::{BAR, put_between, put_each, put_flag, put_id_field, put_objects};
use line_text::Text;

// ---- pieces

pub fn put_field(out: &mut Text, n: u64)
    requires { Room 21 out.old }
    ensures { Puts 21 out.old (field n) out.new }
{
    out.put(b',');
    out.put_decimal(n);
}

fn put_signed(out: &mut Text, n: i32)
    requires { Room 21 out.old }
    ensures { Puts 21 out.old (signed_decimal n) out.new }
{
    if n < 0 {
        out.put(b'-');
    }
    out.put_decimal(n.unsigned_abs() as u64);
}

// ---- occupied slots

// What is shown of an occupied slot, in at most so many bytes.
trait Shown {
    ghost text: { ℕ → TaskControl → List ℕ };

    ghost most: { ℕ };

    fn put(out: &mut Text, i: usize, t: &TaskControl)
        requires { Room most out.old }
        ensures { Puts most out.old (text i t.now) out.new };
}

struct Fields;

struct Limit;

impl Shown for Fields {
    ghost text = { slot_text };

    ghost most = { 273 };

    fn put(out: &mut Text, i: usize, t: &TaskControl) {
        out.put_decimal(i as u64);
        put_field(out, t.id.0 as u64);
        put_field(out, t.state.number() as u64);
        put_field(out, t.priority.0 as u64);
        put_field(out, t.wake_tick);
        put_field(out, t.time_slice as u64);
        put_field(out, t.remaining_slice as u64);
        put_field(out, t.owned_mutex_count as u64);
        put_id_field(out, t.waiter);
        put_field(out, t.stack.start as u64);
        put_field(out, t.stack.size as u64);
        put_field(out, t.sp as u64);
        out.put(b',');
        put_signed(out, t.result);
    }
}

impl Shown for Limit {
    ghost text = { limit_text };

    ghost most = { 66 };

    fn put(out: &mut Text, i: usize, t: &TaskControl) {
        out.put_decimal(i as u64);
        put_kept(out, t.limit_object, t.limit_tick);
        out.put(b',');
        put_flag(out, t.limit_passed);
    }
}

fn put_kept(out: &mut Text, object: LimitObject, tick: u64)
    requires { Room 44 out.old }
    ensures { Puts 44 out.old (kept_text object tick) out.new }
{
    match object {
        LimitObject::NoLimit => out.put_text(b",-,-,-"),
        LimitObject::AtSemaphore(s) => {
            out.put_text(b",s");
            put_field(out, s as u64);
            put_field(out, tick);
        },
        LimitObject::AtEvent(e) => {
            out.put_text(b",e");
            put_field(out, e as u64);
            put_field(out, tick);
        },
    }
}

fn put_occupied<S: Shown>(out: &mut Text, k: Kernel)
    requires { Room ((1 + S.most) * 16) out.old }
    ensures { Puts ((1 + S.most) * 16) out.old (occupied_text S.text k) out.new }
{
    let mut any = false;
    for i in 0..Kernel::MAX_TASKS {
        let t = &k.tasks[i];
        if t.occupied {
            put_between(out, any, b';');
            S::put(out, i, t);
        }
        any |= t.occupied;
    }
}

// ---- the rest of the scheduler

fn put_scheduler(out: &mut Text, k: Kernel)
    requires { Room 85 out.old }
    ensures { Puts 85 out.old (scheduler_text k) out.new }
{
    out.put_decimal(k.tick_count);
    out.put(b',');
    put_flag(out, k.started);
    put_field(out, k.current.0 as u64);
    put_field(out, k.task_count as u64);
    put_field(out, k.next_id);
}

// ---- ranks

// `-` for an empty slot.
fn put_rank(out: &mut Text, occupied: bool, rank: u8)
    requires { Room 20 out.old }
    ensures { Puts 20 out.old (rank_text occupied rank) out.new }
{
    if occupied {
        out.put_decimal(rank as u64);
    } else {
        out.put(b'-');
    }
}

fn put_ranks(out: &mut Text, k: Kernel)
    requires { Room 336 out.old }
    ensures { Puts 336 out.old (ranks_text k) out.new }
{
    let ranks = leaf_rank::internal::ranks(k);
    for i in 0..Kernel::MAX_TASKS {
        put_between(out, 0 < i, b',');
        put_rank(out, k.tasks[i].occupied, ranks[i]);
    }
}

// ---- the line; what 02 adds follows the objects

pub fn put_table(out: &mut Text, k: Kernel)
    requires { Room 8662 out.old }
    ensures { Puts 8662 out.old (table_line k) out.new }
{
    put_occupied::<Fields>(out, k);
    out.put_text(BAR);
    put_scheduler(out, k);
    out.put_text(BAR);
    put_objects(out, k);
    out.put_text(BAR);
    put_each(out, b',', &k.charges);
    out.put_text(BAR);
    put_occupied::<Limit>(out, k);
    out.put_text(BAR);
    put_ranks(out, k);
    out.put_text(BAR);
    out.put_decimal(k.retired_charge);
    out.put(b'\n');
}
