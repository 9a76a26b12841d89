// A line of a sheet read: its row is written past the rows that the words hold, judged there, and added.
#![tactic(auto)]

ghost use Rattle.std.specs.Prelude.{◌≡◌, true, ◌+◌, ◌-◌, ◌*◌, ◌≤◌, ◌<◌, length, get_or, set, OnOk};
ghost use Rattle.words.specs.Log.{part};
ghost use Rattle.sheet.specs.Forms.{row_of_value};
ghost use Rattle.sheet.specs.Sheet.{in_order};
ghost use Rattle.table.specs.Layout.{TOP, SPENT, heap, with_row, held};
ghost use Rattle.line.specs.Codes.{mode_of};
ghost use Rattle.seen.specs.Seen.{with_seen, Seen};
ghost use Rattle.uses.specs.Under.{under_row, spent_on};
ghost use Rattle.faults.specs.Numbers.{fault_number};
ghost use Rattle.take.specs.Steps.{with_depth, with_under, notes_of, with_notes, Reached, Ready, Taken};

use faults::Fault;
use forms::{NODE, POLICY, TYPE, VALUE};
use judge::judge_at;
use line::row_entry;
use scan::Cursor;
use table::{NODEDEPTHS, SIZES, SLOTS, SPENT, TOP, TYPEDEPTHS, USES, VALUEDEPTHS, add_row, count};
use uses::{under_of, uses_with};
use words::{ROOM, cut, put, read};

fn put_depth(work: &mut [u32], key: usize, number: u32, depth: u32)
    ensures { work.new ≡ with_depth work.old key number depth }
{
    let i = number as usize;
    if key == TYPE {
        put(work, TYPEDEPTHS + i, depth);
        return;
    }
    if key == VALUE {
        put(work, VALUEDEPTHS + i, depth);
        return;
    }
    if key == NODE {
        put(work, NODEDEPTHS + i, depth);
        put(work, USES + i, 0);
    }
}

// Notes how many nodes are under a node more, whose row is the words from the heap's end up to `end`, and which slots.
fn put_under(rows: &[u32], work: &mut [u32], number: u32, end: u32)
    ensures { work.new ≡ with_under work.old number (under_row rows.now work.old (part rows.now (get_or rows.now TOP 0) end)) }
{
    let top = read(rows, TOP) as usize;
    let under = under_of(rows, work, cut(rows, top, end as usize));
    let i = number as usize;
    put(work, SIZES + i, under.size);
    put(work, SLOTS + i, under.slots);
}

// Notes how many uses of nodes the policies have with one more, whose row is the words from the heap's end up to `end`.
fn put_uses(rows: &[u32], work: &mut [u32], end: u32)
    ensures { work.new ≡ set work.old SPENT (spent_on rows.now work.old (part rows.now (get_or rows.now TOP 0) end)) }
{
    let top = read(rows, TOP) as usize;
    let uses = uses_with(rows, work, cut(rows, top, end as usize));
    put(work, SPENT, uses);
}

// Notes what the line of this key that is the words from the heap's end up to `end` adds: what is under a node, or the uses of a policy.
fn put_notes(rows: &[u32], work: &mut [u32], key: usize, end: u32)
    ensures { work.new ≡ notes_of rows.now work.old key end }
{
    if key == NODE {
        put_under(rows, work, count(rows, NODE), end);
        return;
    }
    if key == POLICY {
        put_uses(rows, work, end);
    }
}

// The words from the heap's end up to `end` become a line of this key and depth.
fn commit(rows: &mut [u32], work: &mut [u32], key: usize, depth: u32, end: u32)
    requires { get_or rows.old key 0 < 4294967295 }
    ensures row { rows.new ≡ with_row rows.old key end }
    ensures depths { work.new ≡ with_notes rows.old work.old key end depth }
{
    let n = count(rows, key);
    put_notes(rows, work, key, end);
    put_depth(work, key, n, depth);
    add_row(rows, key, end);
}

// Reads a line of this key, with its `=` at the cursor, that ends at byte `end`. Its row joins those seen. The line before has the key `last`.
pub fn take_line(
    sheet: &[u8],
    key: u64,
    equals: Cursor,
    end: usize,
    partial: bool,
    rows: &mut [u32],
    work: &mut [u32],
    seen: &mut [u32],
    last: usize,
) -> Result<(), Fault>
    requires { Ready rows.old work.old × Reached (mode_of partial) (held sheet.now rows.old work.old) × (equals.at < end) × (end ≤ length sheet.now) × (length sheet.now ≤ 16384) × (2 * get_or rows.old TOP 0 + (end + 4 - equals.at) ≤ 2 * heap + 16400) × Seen (held sheet.now rows.old work.old) seen.old × (in_order (held sheet.now rows.old work.old) last ≡ true) }
    ensures line { Taken sheet.now (row_of_value (mode_of partial) key (part sheet.now (equals.at + 1) end)) rows.old work.old rows.new work.new (end + 4 - equals.at) (fault_number result) }
    ensures seen { OnOk result (seen.new ≡ with_seen seen.old (row_of_value (mode_of partial) key (part sheet.now (equals.at + 1) end))) }
{
    let rows = &mut rows[..ROOM];
    let work = &mut work[..ROOM];
    let top = read(rows, TOP) as usize;
    let value = equals.value(sheet, end);
    let n = row_entry(value, key, equals, partial, rows, top).ok_or(Fault::Form)?;
    let next = top + n;
    let v = judge_at(sheet, rows, work, top, next, seen, last)?;
    commit(rows, work, v.key, v.depth, next as u32);
    Ok(())
}
