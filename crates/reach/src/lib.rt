// Entities reached through parents, over the rows in the lent words: a parent is noted where it is first met, and its line is marked and it is
// queued until its own parents are met too. No line is expanded twice, and no set of parents.
#![tactic(auto)]

ghost use Rattle.std.specs.Prelude.{◌≡◌, not, ◌&&◌, ◌||◌, [], ◌∷◌, ◌+◌, ◌≤◌, ◌<◌, eqb, length, get_or, set};
ghost use Rattle.sheet.specs.Forms.{VALUE, at};
ghost use Rattle.sheet.specs.Parents.{parents_in};
ghost use Rattle.table.specs.Layout.{rows_of};
ghost use Rattle.reach.specs.Marks.{LINES, VALUES, HIDDEN, FAR, line_rows, place_of, named, Filled, Indexed, Listed, Queue, Opened, Grown, Spot, Seen, Spread, Expanded, Found, marked_at, any_marked, names_at, is_met, any_met};

use forms::{ENTITY, MARK, SET_VALUE, VALUE};
use met::{note, unmet};
use table::{base_of, count, item, items, row, tag};
use value::contains;
use words::{cut, item_or, put, read};

// The most entity lines, and the most values of a sheet: so many bytes has a table by value.
pub const LINES: usize = 128;

pub const VALUES: usize = 1024;

// So many words has the table of parents' sets: entities come first among the values, and a short table is soon cleared.
const NEAR: usize = 384;

// After the marks of the lines comes the one of all entities that are not listed, then, here, that of lines whose parents are unknown, and that of
// parents whose numbers a table does not have.
pub const HIDDEN: usize = 129;

pub const FAR: usize = 130;

pub const MARKS: usize = 131;

// How many entity lines there are, none past the most.
pub fn lines(rows: &[u32]) -> u32
    ensures { (result ≡ length (line_rows rows.now)) × (result ≤ LINES) }
{
    let n = count(rows, ENTITY);
    if n > LINES as u32 {
        return LINES as u32;
    }
    n
}

// Entity line `number`; none is the empty row.
pub fn line_at(rows: &[u32], number: u32) -> &[u32]
    ensures { result.now ≡ get_or (line_rows rows.now) number [] }
{
    if number >= lines(rows) {
        return &rows[0..0];
    }
    row(rows, ENTITY, number)
}

// The place of the line of entity `value`; as many as there are lines where it has none.
pub fn place_of(rows: &[u32], value: u32) -> u32
    ensures { result ≡ place_of value (line_rows rows.now) }
{
    let n = lines(rows);
    for i in 0..n {
        if item(line_at(rows, i), 1) == value {
            return i;
        }
    }
    n
}

// How many values there are, none past the most.
pub fn values(rows: &[u32]) -> usize
    ensures { result ≤ VALUES }
{
    let n = count(rows, VALUE) as usize;
    if n > VALUES {
        return VALUES;
    }
    n
}

// ---- tables by value: bytes, so that little is cleared for each question

// The byte of each entity becomes the place of its line: from the last line to the first, so that the first one stays. The others stay as many as
// there are lines. The word of each entity becomes the last item of its line, the set of its parents. A line ends where the next one begins.
fn index(rows: &[u32], places: &mut [u8], sets: &mut [u32])
    requires { Filled (length (line_rows rows.now)) places.old }
    ensures { Indexed (line_rows rows.now) places.new × Listed (line_rows rows.now) sets.new }
{
    let n = lines(rows);
    let b = base_of(ENTITY);
    let mut end = read(rows, b + n as usize) as usize;
    for i in (0..n).rev() {
        let start = read(rows, b + i as usize) as usize;
        let line = cut(rows, start, end);
        let v = item(line, 1) as usize;
        put(sets, v, item(line, 4));
        put(places, v, i as u8);
        end = start;
    }
}

// The tables by value that say where the lines of entities are, and which parents they name.
#[derive(Drop)]
struct Tables<'a> {
    rows: &'a [u32],
    places: &'a [u8],
    sets: &'a [u32],
    ghost indexed: { Indexed (line_rows rows.now) places.now },
    ghost listed: { Listed (line_rows rows.now) sets.now },
}

impl<'a> Tables<'a> {
    // The place of the line of entity `value`; a number past the table's end is looked for.
    fn place(&self, value: u32) -> u32
        ensures { result ≡ place_of value (line_rows self.now.rows.now) }
    {
        let i = value as usize;
        if i < self.places.len() {
            return u32::from(self.places[i]);
        }
        place_of(self.rows, value)
    }

    // The last item of the line of entity `value`: the search does not wait for the place of the line. Past the table's end it is looked for.
    fn set_of(&self, value: u32) -> u32
        requires { place_of value (line_rows self.now.rows.now) < length (line_rows self.now.rows.now) }
        ensures { result ≡ at (get_or (line_rows self.now.rows.now) (place_of value (line_rows self.now.rows.now)) []) 3 }
    {
        let i = value as usize;
        if i < self.sets.len() {
            return self.sets[i];
        }
        item(line_at(self.rows, self.place(value)), 4)
    }
}

// The parents that the last item of an entity line names.
fn parents_in(rows: &[u32], parents: u32) -> &[u32]
    ensures { result.now ≡ named (rows_of rows.now VALUE) parents }
{
    if parents == MARK {
        return &rows[0..0];
    }
    let q = row(rows, VALUE, parents);
    if tag(q) != SET_VALUE {
        return &rows[0..0];
    }
    items(q)
}

// The parents that line `number` names.
pub fn parents_of(rows: &[u32], number: u32) -> &[u32]
    ensures { result.now ≡ parents_in (rows_of rows.now VALUE) (line_rows rows.now) (get_or (line_rows rows.now) number []) }
{
    parents_in(rows, item(line_at(rows, number), 4))
}

// ---- the search

// kept: marks, queue and its end, and what holds of them, side by side with the entities met: a struct of slices that are lent to be changed has to
// promise for each call that it keeps them lent, which is longer than what they ask.

// The line of entity `value` is marked; where it was not before the entity is queued. All that are not listed have one mark. Back comes where the
// queue ends.
fn see_at(tables: &Tables, value: u32, marks: &mut [u32], queue: &mut [u32], end: u32) -> u32
    requires { Queue (line_rows tables.now.rows.now) marks.old queue.old end }
    ensures { Grown (line_rows tables.now.rows.now) value marks.old queue.old end marks.new queue.new result }
{
    let k = tables.place(value);
    let i = k as usize;
    if marks[i] != 0 {
        return end;
    }
    marks[i] = 1;
    if k >= lines(tables.rows) {
        return end;
    }
    queue[end as usize] = value;
    end + 1
}

// Parent `value` is met; where it was not before its line is marked.
fn meet(
    tables: &Tables,
    value: u32,
    met: &mut [u8],
    marks: &mut [u32],
    queue: &mut [u32],
    end: u32,
) -> u32
    requires queue { Queue (line_rows tables.now.rows.now) marks.old queue.old end }
    requires spot { Spot (line_rows tables.now.rows.now) met.old marks.old }
    ensures { Seen (line_rows tables.now.rows.now) (value ∷ []) 1 met.old marks.old queue.old end met.new marks.new queue.new result }
{
    if note(met, marks, FAR, value) {
        return end;
    }
    see_at(tables, value, marks, queue, end)
}

// The parents of a list are met.
fn see(
    tables: &Tables,
    list: &[u32],
    met: &mut [u8],
    marks: &mut [u32],
    queue: &mut [u32],
    end: u32,
) -> u32
    requires queue { Queue (line_rows tables.now.rows.now) marks.old queue.old end }
    requires spot { Spot (line_rows tables.now.rows.now) met.old marks.old }
    ensures { Seen (line_rows tables.now.rows.now) list.now (length list.now) met.old marks.old queue.old end met.new marks.new queue.new result }
{
    let mut e = end;
    let mut i = unmet(met, list, 0);
    while i < list.len() {
        e = meet(tables, list[i], met, marks, queue, e);
        i = unmet(met, list, i + 1);
    }
    e
}

// Parents that are unknown are marked as such.
fn hide(marks: &mut [u32], parents: u32)
    requires { FAR < length marks.old }
    ensures { Opened parents marks.old marks.new }
{
    if parents == MARK {
        marks[HIDDEN] = 1;
    }
}

// The parents that the last item of a line names are met, once for each set of parents.
fn expand(
    tables: &Tables,
    parents: u32,
    asked: &mut [u8],
    met: &mut [u8],
    marks: &mut [u32],
    queue: &mut [u32],
    end: u32,
) -> u32
    requires queue { Queue (line_rows tables.now.rows.now) marks.old queue.old end }
    requires spot { Spot (line_rows tables.now.rows.now) met.old marks.old }
    requires spread { Spread (rows_of tables.now.rows.now VALUE) (line_rows tables.now.rows.now) asked.old met.old marks.old }
    ensures { Expanded (rows_of tables.now.rows.now VALUE) (line_rows tables.now.rows.now) parents asked.old met.old marks.old queue.old end asked.new met.new marks.new queue.new result }
{
    let i = parents as usize;
    if item_or(asked, i, 0) != 0 {
        return end;
    }
    put(asked, i, 1);
    see(
        tables,
        parents_in(tables.rows, parents),
        met,
        marks,
        queue,
        end,
    )
}

// Marks the lines that entity `value` reaches, its own among them, and notes the ancestors met. Before, nothing is marked or noted.
pub fn reach(rows: &[u32], value: u32, met: &mut [u8], marks: &mut [u32])
    requires in_bounds { FAR < length marks.old }
    requires filled { Filled 0 met.old × Filled 0 marks.old }
    ensures { Found (rows_of rows.now VALUE) (line_rows rows.now) value met.new marks.new }
{
    let n = lines(rows) as u8;
    let mut places: [u8; VALUES] = [n; VALUES];
    let mut sets: [u32; NEAR] = [0; NEAR];
    index(rows, &mut places[..], &mut sets[..]);
    let tables = Tables {
        rows,
        places: &places[..],
        sets: &sets[..],
    };
    let mut asked: [u8; VALUES] = [0; VALUES];
    let mut queue: [u32; LINES] = [0; LINES];
    let mut end = see_at(&tables, value, marks, &mut queue[..], 0);
    // kept: the queue grows while it is walked, so no range and no slice has its end.
    let mut i = 0;
    while i < end {
        let v = queue[i as usize];
        let parents = tables.set_of(v);
        hide(marks, parents);
        end = expand(
            &tables,
            parents,
            &mut asked[..],
            met,
            marks,
            &mut queue[..],
            end,
        );
        i += 1;
    }
}

// ---- what is asked of what was found

// Whether line `number` is marked and names parent `value`.
fn names_at(rows: &[u32], marks: &[u32], number: u32, value: u32) -> bool
    ensures { result ≡ marked_at (names_at (rows_of rows.now VALUE) (line_rows rows.now) value) marks.now number }
{
    if read(marks, number as usize) == 0 {
        return false;
    }
    contains(parents_of(rows, number), value)
}

// Whether a marked line names parent `value`.
fn names(rows: &[u32], marks: &[u32], value: u32) -> bool
    ensures { result ≡ any_marked (names_at (rows_of rows.now VALUE) (line_rows rows.now) value) marks.now 0 (length (line_rows rows.now)) }
{
    (0..lines(rows)).any(|i| names_at(rows, marks, i, value))
}

// Whether parent `value` was met; a number past the table is looked for on the marked lines, if there was such a one.
fn is_met(rows: &[u32], met: &[u8], marks: &[u32], value: u32) -> bool
    ensures { result ≡ is_met (rows_of rows.now VALUE) (line_rows rows.now) met.now marks.now value }
{
    let i = value as usize;
    if i < met.len() {
        return met[i] != 0;
    }
    if read(marks, FAR) == 0 {
        return false;
    }
    names(rows, marks, value)
}

// Whether one of these was met.
pub fn meets_above(rows: &[u32], targets: &[u32], met: &[u8], marks: &[u32]) -> bool
    ensures { result ≡ any_met (rows_of rows.now VALUE) (line_rows rows.now) met.now marks.now targets.now }
{
    targets
        .iter()
        .any(|&target| is_met(rows, met, marks, target))
}

// Whether one that is not listed was met, or the parents on a marked line are unknown.
pub fn open_above(rows: &[u32], marks: &[u32]) -> bool
    ensures { result ≡ (not (eqb (get_or marks.now HIDDEN 0) 0) || not (eqb (get_or marks.now (length (line_rows rows.now)) 0) 0)) }
{
    if read(marks, HIDDEN) != 0 {
        return true;
    }
    let n = lines(rows);
    read(marks, n as usize) != 0
}
