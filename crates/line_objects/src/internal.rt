// What a text grows by; the room for it is asked of the caller.
ghost use Rattle.std.specs.Prelude.{ℕ, List, [], ◌∷◌, ◌+◌, ◌*◌, length, map, decimal};
ghost use Rattle.base.specs.Choice.{if◌then◌otherwise◌};
ghost use Rattle.line_text.specs.Text.{Room, Puts};
ghost use Rattle.line_objects.specs.ObjectsLine.{joined_all, flag, id_text, id_field, queue_text, waiters_text, mutex_text, semaphore_text, event_text, all_objects};

use kernel::control::TaskId;
use kernel::event::Event;
use kernel::mutex::Mutex;
use kernel::scheduler::Kernel;
use kernel::semaphore::Semaphore;
use kernel::wait_queue::WaitQueue;
use line_text::Text;

pub const BAR: &[u8] = b" | ";

// ---- pieces

// A byte between two texts; nothing before the first.
pub fn put_between(out: &mut Text, any: bool, b: u8)
    requires { Room 1 out.old }
    ensures { Puts 1 out.old (if any then b ∷ [] otherwise []) out.new }
{
    if any {
        out.put(b);
    }
}

pub fn put_flag(out: &mut Text, yes: bool)
    requires { Room 1 out.old }
    ensures { Puts 1 out.old (flag yes) out.new }
{
    if yes {
        out.put(b'1');
    } else {
        out.put(b'0');
    }
}

fn put_id(out: &mut Text, id: Option<TaskId>)
    requires { Room 20 out.old }
    ensures { Puts 20 out.old (id_text id) out.new }
{
    match id {
        None => out.put(b'-'),
        Some(id) => out.put_decimal(id.0 as u64),
    }
}

#[tactic(auto, using(line_text::proofs::Writing::put_two))]
pub fn put_id_field(out: &mut Text, id: Option<TaskId>)
    requires { Room 21 out.old }
    ensures { Puts 21 out.old (id_field id) out.new }
{
    out.put(b',');
    put_id(out, id);
}

// What has a text of at most so many bytes.
pub trait Printed {
    ghost text: { Self → List ℕ };

    ghost most: { ℕ };

    fn put(&self, out: &mut Text)
        requires { Room most out.old }
        ensures { Puts most out.old (text self.now) out.new };
}

impl Printed for u64 {
    ghost text = { decimal };

    ghost most = { 20 };

    fn put(&self, out: &mut Text) {
        out.put_decimal(*self);
    }
}

// The texts of all items, with a byte between them.
pub fn put_each<T: Printed>(out: &mut Text, byte: u8, items: &[T])
    requires { Room ((1 + T.most) * length items.now) out.old }
    ensures { Puts ((1 + T.most) * length items.now) out.old (joined_all byte (map T.text items.now)) out.new }
{
    for (i, item) in items.iter().enumerate() {
        put_between(out, 0 < i, byte);
        item.put(out);
    }
}

// ---- objects

impl Printed for TaskId {
    ghost text = { λ a. decimal a.0 };

    ghost most = { 20 };

    fn put(&self, out: &mut Text) {
        out.put_decimal(self.0 as u64);
    }
}

// Of the ids those that wait.
fn put_queue(out: &mut Text, q: WaitQueue)
    requires { Room 170 out.old }
    ensures { Puts 170 out.old (queue_text q) out.new }
{
    out.put(b'[');
    put_each(out, b' ', &q.ids[..q.len.min(WaitQueue::MAX_WAITERS)]);
    out.put(b']');
}

fn put_waiters(out: &mut Text, q: WaitQueue)
    requires { Room 172 out.old }
    ensures { Puts 172 out.old (waiters_text q) out.new }
{
    out.put(b',');
    put_queue(out, q);
    out.put(b';');
}

impl Printed for Mutex {
    ghost text = { mutex_text };

    ghost most = { 215 };

    fn put(&self, out: &mut Text) {
        put_flag(out, self.locked);
        put_id_field(out, self.owner);
        put_id_field(out, self.handoff_to);
        put_waiters(out, self.waiters);
    }
}

impl Printed for Semaphore {
    ghost text = { semaphore_text };

    ghost most = { 192 };

    fn put(&self, out: &mut Text) {
        out.put_decimal(self.count as u64);
        put_waiters(out, self.waiters);
    }
}

impl Printed for Event {
    ghost text = { event_text };

    ghost most = { 173 };

    fn put(&self, out: &mut Text) {
        put_flag(out, self.signaled);
        put_waiters(out, self.waiters);
    }
}

pub fn put_objects(out: &mut Text, k: Kernel)
    requires { Room 2338 out.old }
    ensures { Puts 2338 out.old (all_objects k) out.new }
{
    put_each(out, b' ', &k.mutexes);
    out.put_text(BAR);
    put_each(out, b' ', &k.semaphores);
    out.put_text(BAR);
    put_each(out, b' ', &k.events);
}
