// The attributes of entities, for the many steps of a long path: of each entity whose line is the first with its text, those of a short record.
// What stands there is noted in cells, by value and text.
#![tactic(auto)]

ghost use Rattle.std.specs.Prelude.{◌≡◌, [], ◌+◌, ◌≤◌, ◌<◌, length, get_or};
ghost use Rattle.sheet.specs.Forms.{ENTITY};
ghost use Rattle.table.specs.Layout.{rows_of};
ghost use Rattle.firsts.specs.Firsts.{Kept, KeptAll, Sourced, Entered, Firsts, Leads, Noted, cell_of};

use forms::{ENTITY, MARK, VALUE};
use lookup::TEXTS;
use table::{base_of, count, item, items, row};
use value::{Shape, row_of, shape_of};
use words::{cut, item_or, put, read};

// A cell: whose attribute it is, the attribute's text plus one, or 0 where nothing is noted, and the value that it leads to.
// kept: an Option would take more words, and each long path clears a thousand cells.
#[derive(Clone, Copy)]
pub struct Cell {
    pub owner: u32,
    pub text: u32,
    pub next: u32,
}

// The cell where nothing is noted.
pub const BLANK: Cell = Cell {
    owner: 0,
    text: 0,
    next: 0,
};

// The cells.
pub const CELLS: usize = 1024;

// The columns of cells, and the cells of each.
const COLUMNS: usize = 8;

const COLUMN: usize = 128;

// The entries of a record that are noted.
const SHORT: usize = 8;

// The place of the cell of `value` in the column of `text`.
pub fn cell_of(value: u32, text: u32) -> usize
    ensures { result ≡ cell_of value text }
{
    text as usize % COLUMNS * COLUMN + value as usize
}

// Notes that `text` leads from `value` to `next`.
pub fn keep(cells: &mut [Cell], value: u32, text: u32, next: u32)
    ensures { Kept value text next cells.old cells.new }
{
    if text >= TEXTS as u32 {
        return;
    }
    let cell = Cell {
        owner: value,
        text: text + 1,
        next,
    };
    put(cells, cell_of(value, text), cell);
}

// Where `text` leads from `value`, if it is noted.
pub fn next(cells: &[Cell], value: u32, text: u32) -> Option<u32>
    ensures leads { Leads cells.now value text result }
    ensures noted { Noted cells.now value text result }
{
    let cell = item_or(cells, cell_of(value, text), BLANK);
    if cell.text as usize != text as usize + 1 {
        return None;
    }
    if cell.owner != value {
        return None;
    }
    Some(cell.next)
}

// Notes the attributes of `value` among these entries, as long as their texts ascend and they are few.
fn keep_all(cells: &mut [Cell], value: u32, entries: &[u32])
    ensures { KeptAll entries.now value cells.old cells.new }
{
    let (pairs, _) = entries.as_chunks::<2>();
    let mut low: usize = 0;
    for (i, pair) in pairs.iter().enumerate() {
        let text = pair[0];
        if i >= SHORT || (text as usize) < low {
            return;
        }
        keep(cells, value, text, pair[1]);
        low = text as usize + 1;
    }
}

// Notes the attributes of `value`, which are `source`, a record or unknown.
fn keep_source(rows: &[u32], value: u32, source: u32, cells: &mut [Cell])
    ensures { Sourced rows.now value source cells.old cells.new }
{
    if source == MARK {
        return;
    }
    let r = row_of(rows, source as usize);
    let s = shape_of(r);
    let Shape::Record = s else {
        return;
    };
    keep_all(cells, value, items(r));
}

// Notes the entity of line `number`, unless a line before it has its text.
fn enter(rows: &[u32], number: u32, line: &[u32], seen: &mut [u32], cells: &mut [Cell])
    requires number_in_bounds { number < length (rows_of rows.now ENTITY) }
    requires line_value { line.now ≡ get_or (rows_of rows.now ENTITY) number [] }
    requires entered { Entered rows.now number seen.old cells.old }
    ensures { Entered rows.now (number + 1) seen.new cells.new }
{
    let v = item(line, 1);
    if v >= count(rows, VALUE) {
        return;
    }
    let s = shape_of(row(rows, VALUE, v));
    let Shape::Entity(_, t) = s else {
        return;
    };
    if t as usize >= seen.len() {
        return;
    }
    if read(seen, t as usize) != 0 {
        return;
    }
    put(seen, t as usize, 1);
    keep_source(rows, v, item(line, 2), cells);
}

// Notes the entities of all lines: each line begins where the one before ends.
fn enter_all(rows: &[u32], seen: &mut [u32], cells: &mut [Cell])
    requires { Firsts rows.now cells.old }
    ensures { Firsts rows.now cells.new }
{
    let n = count(rows, ENTITY);
    let b = base_of(ENTITY);
    let mut start = read(rows, b) as usize;
    for i in 0..n {
        let end = read(rows, b + i as usize + 1) as usize;
        enter(rows, i, cut(rows, start, end), seen, cells);
        start = end;
    }
}

// The same, with a table by text for those met.
pub fn firsts(rows: &[u32], cells: &mut [Cell])
    requires { Firsts rows.now cells.old }
    ensures { Firsts rows.now cells.new }
{
    let mut seen: [u32; TEXTS] = [0; TEXTS];
    enter_all(rows, &mut seen[..], cells);
}
