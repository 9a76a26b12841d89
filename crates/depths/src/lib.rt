// The depth of a row, from the rows that the words hold; whether the lines that it refers to are there.
#![tactic(auto)]

ghost use Rattle.std.specs.Prelude.{◌≡◌, List, true, cond, ℕ, ◌+◌, ◌<◌, ltb, eqb, get_or};
ghost use Rattle.sheet.specs.Forms.{no_key, NODE};
ghost use Rattle.table.specs.Layout.{depths_in};
ghost use Rattle.forms.specs.Rows.{LINE};
ghost use Rattle.depths.specs.Codes.{places_at, places_after, place_code};
ghost use Rattle.depths.specs.Depths.{ThereAs, there_depth, OnOne, OnTwo, OnNone};

use forms::{
    AND, GET, HASPATH, IF, LINE, LIT, MARK, NODE, TEXT, TYPE, UNKNOWN, VALUE, form_of, slots_of,
};
use table::{NODEDEPTHS, TYPEDEPTHS, VALUEDEPTHS, count, item, items, tag};
use words::read;

// ---- what a row's items refer to

// What may stand at a place of a row and at those after it: a byte each, the first the lowest; and at those of the group, which follow any number of
// times.
#[derive(Clone, Copy)]
pub struct Places {
    pub slots: u32,
    pub group: u32,
}

impl Places {
    // All places of a row with this tag.
    pub fn of(tag: u32) -> Self
        ensures { result ≡ places_at tag 0 }
    {
        let form = form_of(tag);
        let slots = slots_of(form);
        let group = (slots as usize >> (form.items % 8 * 8)) as u32;
        Places { slots, group }
    }

    // What may stand at the first of them.
    pub fn slot(self) -> u8
        ensures { result ≡ place_code self }
    {
        (self.slots % 256) as u8
    }

    // Those after it.
    pub fn after(self) -> Self
        ensures { result ≡ places_after self }
    {
        let rest = self.slots / 256;
        if rest == 0 {
            return Places {
                slots: self.group,
                group: self.group,
            };
        }
        Places {
            slots: rest,
            group: self.group,
        }
    }
}

// Whether item `x` is there, as its slot asks.
fn is_there(rows: &[u32], slot: u8, x: u32) -> bool
    ensures { ThereAs rows.now slot x result }
{
    if slot < LINE {
        return true;
    }
    if x < count(rows, (slot % LINE) as usize) {
        return true;
    }
    slot >= UNKNOWN && x == MARK
}

// ---- depths

fn depth_at(rows: &[u32], work: &[u32], key: usize, number: u32) -> u32
    requires { key < no_key }
    ensures { result ≡ get_or (depths_in rows.now work.now key) number 0 }
{
    if number >= count(rows, key) {
        return 0;
    }
    let i = number as usize;
    match key {
        TYPE => read(work, TYPEDEPTHS + i),
        VALUE => read(work, VALUEDEPTHS + i),
        NODE => read(work, NODEDEPTHS + i),
        _ => 1,
    }
}

// The depth that item `x` adds to that of a line of a key, as its slot asks.
fn depth_from(rows: &[u32], work: &[u32], key: usize, slot: u8, x: u32) -> u32
    requires { key < no_key }
    ensures { result ≡ cond (eqb slot (LINE + key)) (get_or (depths_in rows.now work.now key) x 0) 0 }
{
    if slot as usize != LINE as usize + key {
        return 0;
    }
    depth_at(rows, work, key, x)
}

// One more than the deepest line of a key that the row refers to, if all lines that it refers to are there.
pub fn depth_listed(rows: &[u32], work: &[u32], key: usize, line: &[u32]) -> Option<usize>
    requires { key < no_key }
    ensures { result ≡ there_depth rows.now work.now key line.now }
{
    let mut places = Places::of(tag(line));
    let mut deepest = 0;
    for &x in items(line) {
        let slot = places.slot();
        if !is_there(rows, slot, x) {
            return None;
        }
        deepest = deepest.max(depth_from(rows, work, key, slot, x));
        places = places.after();
    }
    Some(deepest as usize + 1)
}

// The same of a node that works on two.
fn depth_of_two(rows: &[u32], work: &[u32], line: &[u32]) -> Option<usize>
    requires { OnTwo line.now }
    ensures { result ≡ there_depth rows.now work.now NODE line.now }
{
    let x = item(line, 1);
    let m = count(rows, TYPE);
    if m <= x {
        return None;
    }
    let n = count(rows, NODE);
    let y = item(line, 2);
    if n <= y {
        return None;
    }
    let z = item(line, 3);
    if n <= z {
        return None;
    }
    let d = read(work, NODEDEPTHS + y as usize);
    let e = read(work, NODEDEPTHS + z as usize);
    Some(d.max(e) as usize + 1)
}

// Whether a row is that of a node that works on two.
pub fn is_on_two(line: &[u32]) -> bool
    ensures { result ≡ true → OnTwo line.now }
{
    let t = tag(line);
    line.len() == 4 && AND <= t && t < IF
}

// The depth of a node that works on none: a value, an error or a part of the request.
fn depth_of_leaf(rows: &[u32], line: &[u32]) -> Option<usize>
    requires { OnNone line.now }
    ensures { (b : List ℕ) → result ≡ there_depth rows.now b NODE line.now }
{
    let x = item(line, 1);
    let m = count(rows, TYPE);
    if m <= x {
        return None;
    }
    let t = tag(line);
    if t != LIT {
        return Some(1);
    }
    let y = item(line, 2);
    let n = count(rows, VALUE);
    if n <= y {
        return None;
    }
    Some(1)
}

// Whether a row is that of a node that works on none, with two items.
fn is_on_none(line: &[u32]) -> bool
    ensures { result ≡ true → OnNone line.now }
{
    let t = tag(line);
    line.len() == 3 && LIT <= t && t < AND
}

// The depth of a node that works on one and has a text, if all of these are there.
fn depth_of_one(rows: &[u32], work: &[u32], line: &[u32]) -> Option<usize>
    requires { OnOne line.now }
    ensures { result ≡ there_depth rows.now work.now NODE line.now }
{
    let x = item(line, 1);
    let m = count(rows, TYPE);
    if m <= x {
        return None;
    }
    let n = count(rows, NODE);
    let y = item(line, 2);
    if n <= y {
        return None;
    }
    let z = item(line, 3);
    let k = count(rows, TEXT);
    if k <= z {
        return None;
    }
    let d = read(work, NODEDEPTHS + y as usize);
    Some(d as usize + 1)
}

// Whether a row is that of a node that works on one and has a text: an attribute, or whether there is one.
fn is_on_one(line: &[u32]) -> bool
    ensures { result ≡ true → OnOne line.now }
{
    let t = tag(line);
    line.len() == 4 && GET <= t && t < HASPATH
}

// The same of every node's row. The walk over all items is lent slices of its own, so that these stay out of memory (docs/DECISIONS.md).
pub fn depth_of_node(rows: &[u32], work: &[u32], line: &[u32]) -> Option<usize>
    ensures { result ≡ there_depth rows.now work.now NODE line.now }
{
    if is_on_two(line) {
        return depth_of_two(rows, work, line);
    }
    if is_on_none(line) {
        return depth_of_leaf(rows, line);
    }
    if is_on_one(line) {
        return depth_of_one(rows, work, line);
    }
    depth_listed(&rows[..], &work[..], NODE, &line[..])
}

// Whether a line of this depth is too deep.
pub fn is_too_deep(depth: usize) -> bool
    ensures { result ≡ ltb 64 depth }
{
    64 < depth
}
