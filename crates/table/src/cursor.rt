// A place in the line of a table, and the single moves of which every edit is made.
ghost use Rattle.std.specs.Prelude.{◌≡◌, ◌==◌, ◌+◌, ◌<◌, length, slice_set};
ghost use Rattle.table.specs.Append.{last_index};
ghost use Rattle.table.specs.Chains.{at as record_at};
ghost use Rattle.table.specs.Links.{numbered, link_table, link_head};
ghost use Rattle.table.specs.Links.{released_table, released_head, inserted_table, inserted_head};
ghost use Rattle.table.specs.Numbers.{most_records};
ghost use Rattle.table.specs.Whole.{Checked, line_of};

use crate::{Head, Record};
use points::point::Point;

// The place lies between the record `before` and the record `here`, where 0 stands for none, as in a link. An edit writes
// where it walks, so that no iterator can lend it the records. A link may be any number, so that each move asks for
// records in the table, and no cursor can keep that fact.
#[derive(Drop)]
pub(crate) struct Cursor<'a> {
    table: &'a mut [Record],
    head: &'a mut Head,
    before: u16,
    here: u16,
}

// Where a chain goes on behind the record; from outside the table it does not.
fn next_index(table: &[Record], here: u16) -> u16
    ensures { result ≡ (record_at table.now here).next }
{
    table.get(usize::from(here)).map_or(0, |record| record.next)
}

impl<'a> Cursor<'a> {
    ghost use Rattle.table.specs.Cursors.{HoldsSame};

    // In front of the first record.
    pub(crate) fn start(table: &'a mut [Record], head: &'a mut Head) -> Cursor<'a>
        ensures same_table { result.table.ghost_name ≡ table.entry.ghost_name }
        ensures same_head { result.head.ghost_name ≡ head.entry.ghost_name }
        ensures table { result.table.now ≡ table.old }
        ensures head { result.head.now ≡ head.old }
        ensures before { result.before ≡ 0 }
        ensures here { result.here ≡ head.old.first }
    {
        let here = head.first;
        Cursor {
            table,
            head,
            before: 0,
            here,
        }
    }

    // Behind the last record, where the table is whole.
    pub(crate) fn end(table: &'a mut [Record], head: &'a mut Head) -> Cursor<'a>
        ensures same_table { result.table.ghost_name ≡ table.entry.ghost_name }
        ensures same_head { result.head.ghost_name ≡ head.entry.ghost_name }
        ensures table { result.table.now ≡ table.old }
        ensures head { result.head.now ≡ head.old }
        ensures before { Checked table.old head.old
            → result.before ≡ last_index 0 (line_of table.old head.old) }
        ensures here { result.here ≡ 0 }
    {
        let links = &*table;
        let before = (1..head.count).fold(head.first, |here, _| next_index(links, here));
        Cursor {
            table,
            head,
            before,
            here: 0,
        }
    }

    pub(crate) fn record(&self) -> Record
        requires { self.now.here < length self.now.table.now }
        ensures { result ≡ record_at self.now.table.now self.now.here }
    {
        self.table[usize::from(self.here)]
    }

    // Whether the record here came with this edit.
    pub(crate) fn is_of(&self, edit: u8) -> bool
        requires { self.now.here < length self.now.table.now }
        ensures { result ≡ ((record_at self.now.table.now self.now.here).edit == edit) }
    {
        self.record().edit == edit
    }

    // On behind the record here.
    pub(crate) fn step(&mut self)
        requires { self.old.here < length self.old.table.now }
        ensures same { HoldsSame self.old self.new }
        ensures table { self.new.table.now ≡ self.old.table.now }
        ensures head { self.new.head.now ≡ self.old.head.now }
        ensures before { self.new.before ≡ self.old.here }
        ensures here { self.new.here ≡ (record_at self.old.table.now self.old.here).next }
    {
        let next = self.record().next;
        self.before = self.here;
        self.here = next;
    }

    // Gives the record here another edit number, and goes on behind it.
    pub(crate) fn renumber(&mut self, edit: u8)
        requires { self.old.here < length self.old.table.now }
        ensures same { HoldsSame self.old self.new }
        ensures table { self.new.table.now ≡ slice_set self.old.table.now self.old.here
            (numbered (record_at self.old.table.now self.old.here) edit) }
        ensures head { self.new.head.now ≡ self.old.head.now }
        ensures before { self.new.before ≡ self.old.here }
        ensures here { self.new.here ≡ (record_at self.old.table.now self.old.here).next }
    {
        self.table[usize::from(self.here)].edit = edit;
        self.step();
    }

    // Sets the link at the place: the one in the record before, or the head's.
    fn link(&mut self, to: u16)
        requires { self.old.before < length self.old.table.now }
        ensures same { HoldsSame self.old self.new }
        ensures table { self.new.table.now ≡ link_table self.old.table.now self.old.before to }
        ensures head { self.new.head.now ≡ link_head self.old.head.now self.old.before to }
        ensures before { self.new.before ≡ self.old.before }
        ensures here { self.new.here ≡ self.old.here }
    {
        if self.before == 0 {
            self.head.first = to;
        } else {
            self.table[usize::from(self.before)].next = to;
        }
    }

    // Takes the record here out of the line and puts it before the free ones.
    pub(crate) fn remove(&mut self)
        requires before { self.old.before < length self.old.table.now }
        requires here { self.old.here < length self.old.table.now }
        requires some { 0 < self.old.head.now.count }
        ensures same { HoldsSame self.old self.new }
        ensures table { self.new.table.now
            ≡ released_table self.old.table.now self.old.head.now self.old.before self.old.here }
        ensures head { self.new.head.now
            ≡ released_head self.old.table.now self.old.head.now self.old.before self.old.here }
        ensures before { self.new.before ≡ self.old.before }
        ensures here { self.new.here ≡ (record_at self.old.table.now self.old.here).next }
    {
        let next = self.record().next;
        self.link(next);
        self.table[usize::from(self.here)] = Record::free(self.head.free);
        self.head.free = self.here;
        self.head.count -= 1;
        self.here = next;
    }

    // Takes the first free record into the line at the place, with the point, and lies behind it then.
    pub(crate) fn insert(&mut self, point: Point, edit: u8)
        requires before { self.old.before < length self.old.table.now }
        requires free { self.old.head.now.free < length self.old.table.now }
        requires room { self.old.head.now.count + 1 < most_records }
        ensures same { HoldsSame self.old self.new }
        ensures table { self.new.table.now ≡ inserted_table self.old.table.now self.old.head.now
            self.old.before self.old.here point edit }
        ensures head { self.new.head.now
            ≡ inserted_head self.old.table.now self.old.head.now self.old.before }
        ensures before { self.new.before ≡ self.old.head.now.free }
        ensures here { self.new.here ≡ self.old.here }
    {
        let taken = self.head.free;
        self.head.free = self.table[usize::from(taken)].next;
        self.head.count += 1;
        self.table[usize::from(taken)] = Record {
            x: point.x,
            y: point.y,
            next: self.here,
            edit,
        };
        self.link(taken);
        self.before = taken;
    }
}
