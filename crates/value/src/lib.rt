// The values of a run by number: those of the sheet, then those made, each a row of words. What a row holds, the members of a set,
// the entries of a record; a value found or made (`making`).
#![tactic(auto)]

pub mod making;

ghost use Rattle.std.specs.Prelude.{◌≡◌, [], true, cond, ◌+◌, ltb, get_or, length, drop};
ghost use Rattle.cedar.specs.Numbered.{mem_n, all_n, any_n, entry_of};
ghost use Rattle.sheet.specs.State.{entries_of};
ghost use Rattle.sheet.specs.Sheet.{ascend};
ghost use Rattle.value.specs.Lines.{value_lines};
ghost use Rattle.value.specs.Places.{lower_than};
ghost use Rattle.value.specs.Shapes.{shape_of, value_found};

use forms::{ENTITY_VALUE, LONG_VALUE, RECORD_VALUE, SET_VALUE, TEXT_VALUE, VALUE};
use table::{MADE, count, item, row, tag};

// What a value's row says: a bool, a long as its number plus 2^63, a text, an entity's kind and text, a set, a record.
#[derive(Clone, Copy)]
pub enum Shape {
    Bool(bool),
    Long(u64),
    Text(u32),
    Entity(u32, u32),
    Set,
    Record,
}

// How many values there are.
pub fn total(rows: &[u32]) -> usize
    ensures { result ≡ length (value_lines rows.now) }
{
    count(rows, VALUE) as usize + count(rows, MADE) as usize
}

// The row of a value; of a number that no value has, the empty row.
pub fn row_of(rows: &[u32], value: usize) -> &[u32]
    ensures { result.now ≡ get_or (value_lines rows.now) value [] }
{
    let n = count(rows, VALUE) as usize;
    if value < n {
        return row(rows, VALUE, value as u32);
    }
    let m = count(rows, MADE) as usize;
    let w = value - n;
    if w < m {
        return row(rows, MADE, w as u32);
    }
    &rows[0..0]
}

// What a row says.
pub fn shape_of(line: &[u32]) -> Shape
    ensures { result ≡ shape_of line.now }
{
    let t = tag(line);
    let x = item(line, 1);
    let y = item(line, 2);
    if t > RECORD_VALUE {
        return Shape::Bool(false);
    }
    match t {
        RECORD_VALUE => Shape::Record,
        SET_VALUE => Shape::Set,
        ENTITY_VALUE => Shape::Entity(x, y),
        TEXT_VALUE => Shape::Text(x),
        LONG_VALUE => Shape::Long(long::joined(x, y)),
        _ => Shape::Bool(x == 1),
    }
}

// Whether `value` is a member.
pub fn contains(words: &[u32], value: u32) -> bool
    ensures { result ≡ mem_n value words.now }
{
    words.contains(&value)
}

// Whether the members ascend without repeats.
fn ascends(words: &[u32]) -> bool
    ensures { result ≡ ascend 0 words.now }
{
    words.is_sorted_by(|x, y| x < y)
}

// The first place from `from` on whose member is not below `value`.
fn reach(words: &[u32], value: u32, from: usize) -> usize
    ensures { result ≡ from + lower_than value (drop from words.now) }
{
    for j in from..words.len() {
        if words[j] >= value {
            return j;
        }
    }
    from.max(words.len())
}

// Where to look for `value`, after `last` was looked for and reached place `j`.
fn resume(last: u32, value: u32, j: usize) -> usize
    ensures { result ≡ cond (ltb value last) 0 j }
{
    if value < last {
        return 0;
    }
    j
}

// Whether `value` is a member from place `from` on; `up` may be true if the members ascend.
fn stands(words: &[u32], up: bool, value: u32, from: usize) -> bool
    requires { up ≡ true → ascend 0 words.now ≡ true }
    ensures { result ≡ mem_n value (drop from words.now) }
{
    if from >= words.len() {
        return false;
    }
    let x = words[from];
    if value == x {
        return true;
    }
    if up {
        if value < x {
            return false;
        }
    }
    contains(&words[from..], value)
}

// Whether every member of `words` is one of `among`.
pub fn covers(words: &[u32], among: &[u32]) -> bool
    ensures { result ≡ all_n words.now among.now }
{
    let mut u: u32 = 0;
    let mut j = 0;
    for &v in words {
        j = reach(among, v, resume(u, v, j));
        if !stands(among, false, v, j) {
            return false;
        }
        u = v;
    }
    true
}

// Whether some member of `words` is one of `among`.
pub fn meets(words: &[u32], among: &[u32]) -> bool
    ensures { result ≡ any_n words.now among.now }
{
    let up = ascends(among);
    let mut u: u32 = 0;
    let mut j = 0;
    for &v in words {
        j = reach(among, v, resume(u, v, j));
        if stands(among, up, v, j) {
            return true;
        }
        u = v;
    }
    false
}

// The value that a record's items have for a text.
pub fn entry_of(words: &[u32], text: u32) -> Option<u32>
    ensures { value_found result ≡ entry_of text (entries_of words.now) }
{
    let (pairs, _) = words.as_chunks::<2>();
    for pair in pairs {
        if text == pair[0] {
            return Some(pair[1]);
        }
    }
    None
}
