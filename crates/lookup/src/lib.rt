// Look-ups of entities and of the fields of records, by number: the line of an entity, its parts, and a text in a record. What get, has, in
// and paths share. On a complete sheet an unlisted entity has nothing.
#![tactic(auto)]

ghost use Rattle.std.specs.Prelude.{◌≡◌, ◌+◌, ◌≤◌, get_or};
ghost use Rattle.words.specs.Log.{part};
ghost use Rattle.sheet.specs.Forms.{ENTITY};
ghost use Rattle.table.specs.Layout.{rows_of};
ghost use Rattle.lookup.specs.Lookups.{value_in, ATTRIBUTES, TAGS, HALF, HALVINGS, text_there, is_entity_at, line_at, line_in, nearer, led_from, is_line, line_by, part_of, part_of_line, part_by, look_row, look_in, look_by};

use forms::{ENTITY, MARK, VALUE};
use table::{base_of, count, item, items, row};
use value::{Shape, entry_of, row_of, shape_of};
use words::read;

// The most texts of a sheet: a table by text has so many words.
pub const TEXTS: usize = 512;

// Where an entity's attributes and tags stand in its line.
pub const ATTRIBUTES: usize = 1;

pub const TAGS: usize = 2;

// The first step of halving, and how many steps pass over all lines.
const HALF: u32 = 64;

const HALVINGS: u32 = 7;

// A part of an entity's line: a value, nothing at all, or unknown.
#[derive(Clone, Copy)]
pub enum Part {
    Known(u32),
    Empty,
    Unknown,
}

// What a look-up in a record finds: a value, that it is missing, that the record of an entity of this kind is unknown, or no record.
#[derive(Clone, Copy)]
pub enum Look {
    At(u32),
    Missing,
    Unknown(u32),
    Bad,
}

// Whether the word that would be the text of entity `value` of the sheet is `text`; a missing word is 0.
fn has_text(rows: &[u32], value: u32, text: u32) -> bool
    ensures { result ≡ text_there rows.now value text }
{
    if text == 0 {
        return true;
    }
    let s = read(rows, base_of(VALUE) + value as usize);
    read(rows, s as usize + 2) == text
}

// Whether `value` of the sheet is the entity of this kind and text. Most others have another text.
pub fn is_entity(rows: &[u32], value: u32, kind: u32, text: u32) -> bool
    ensures { result ≡ is_entity_at rows.now value kind text }
{
    if !has_text(rows, value, text) {
        return false;
    }
    let s = shape_of(row(rows, VALUE, value));
    let Shape::Entity(l, u) = s else {
        return false;
    };
    if l != kind {
        return false;
    }
    u == text
}

// The first item of the row from `start` to `end`.
pub fn first_of(rows: &[u32], start: usize, end: usize) -> u32
    ensures { result ≡ get_or (part rows.now start end) 1 0 }
{
    if start >= end {
        return 0;
    }
    if start + 1 >= end {
        return 0;
    }
    read(rows, start + 1)
}

// The first line of an entity: each line begins where the one before ends.
pub fn find_entity(rows: &[u32], kind: u32, text: u32) -> Option<u32>
    ensures { line_at (rows_of rows.now ENTITY) result ≡ line_in rows.now kind text }
{
    let n = count(rows, ENTITY);
    let b = base_of(ENTITY);
    let mut s = read(rows, b) as usize;
    for i in 0..n {
        let e = read(rows, b + i as usize + 1) as usize;
        if is_entity(rows, first_of(rows, s, e), kind, text) {
            return Some(i);
        }
        s = e;
    }
    None
}

// Of line `line` and a later one the later, where it is there and its entity's number is at most `value`.
fn nearer(rows: &[u32], value: u32, line: u32, later: u32) -> u32
    ensures { result ≡ nearer (rows_of rows.now ENTITY) value line later }
{
    if later >= count(rows, ENTITY) {
        return line;
    }
    if item(row(rows, ENTITY, later), 1) <= value {
        return later;
    }
    line
}

// The line that halving leads to: the last whose entity's number is at most `value`, where lines ascend by it.
fn led_by(rows: &[u32], value: u32) -> u32
    ensures { result ≡ led_from (rows_of rows.now ENTITY) value HALVINGS HALF 0 }
{
    let mut line = 0;
    let mut step = HALF;
    for _ in 0..HALVINGS {
        line = nearer(rows, value, line, line + step);
        step /= 2;
    }
    line
}

// Whether line `line` names `value`, which is the entity of this kind and text.
fn is_line(rows: &[u32], value: u32, kind: u32, text: u32, line: u32) -> bool
    ensures { result ≡ is_line rows.now value kind text line }
{
    if line >= count(rows, ENTITY) {
        return false;
    }
    if item(row(rows, ENTITY, line), 1) != value {
        return false;
    }
    is_entity(rows, value, kind, text)
}

// The line of entity `value`, of this kind and text, by its number. Where halving does not lead to it, it is looked for.
pub fn line_of(rows: &[u32], value: u32, kind: u32, text: u32) -> Option<u32>
    ensures { line_at (rows_of rows.now ENTITY) result ≡ line_by rows.now value kind text }
{
    let line = led_by(rows, value);
    if is_line(rows, value, kind, text, line) {
        return Some(line);
    }
    find_entity(rows, kind, text)
}

// The item at `place` of an entity's line as it was found, its attributes or its tags.
pub fn part_at(rows: &[u32], complete: bool, line: Option<u32>, place: usize) -> Part
    requires { place ≤ TAGS }
    ensures { part_of result ≡ part_of_line complete (line_at (rows_of rows.now ENTITY) line) place }
{
    let Some(i) = line else {
        if complete {
            return Part::Empty;
        }
        return Part::Unknown;
    };
    let x = item(row(rows, ENTITY, i), place + 1);
    if x == MARK {
        return Part::Unknown;
    }
    Part::Known(x)
}

// The item at `place` of the line of entity `value`.
pub fn part_of(rows: &[u32], complete: bool, value: u32, kind: u32, text: u32, place: usize) -> Part
    requires { place ≤ TAGS }
    ensures { part_of result ≡ part_by complete rows.now value kind text place }
{
    part_at(rows, complete, line_of(rows, value, kind, text), place)
}

// `text` in a part of the line of an entity of this kind.
pub fn look_in(rows: &[u32], kind: u32, part: Part, text: u32) -> Look
    ensures { result ≡ look_in rows.now kind (part_of part) text }
{
    match part {
        Part::Unknown => Look::Unknown(kind),
        Part::Empty => Look::Missing,
        Part::Known(n) => look_at(rows, n, text),
    }
}

// `text` in the record `value`.
pub fn look_at(rows: &[u32], value: u32, text: u32) -> Look
    ensures { result ≡ look_row (value_in rows.now value) text }
{
    let r = row_of(rows, value as usize);
    let s = shape_of(r);
    let Shape::Record = s else {
        return Look::Bad;
    };
    let Some(x) = entry_of(items(r), text) else {
        return Look::Missing;
    };
    Look::At(x)
}

// `text` among the attributes of a record or an entity.
pub fn look_attr(rows: &[u32], complete: bool, value: u32, text: u32) -> Look
    ensures { result ≡ look_by complete rows.now value text }
{
    let s = shape_of(row_of(rows, value as usize));
    let Shape::Entity(k, t) = s else {
        return look_at(rows, value, text);
    };
    look_in(
        rows,
        k,
        part_of(rows, complete, value, k, t, ATTRIBUTES),
        text,
    )
}
