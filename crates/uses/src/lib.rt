// The nodes under a node, and the uses of nodes.
#![tactic(auto)]

ghost use Rattle.std.specs.Prelude.{◌≡◌, [], ◌+◌, eqb};
ghost use Rattle.sheet.specs.Forms.{key_of, keep, refs, NODE};
ghost use Rattle.forms.specs.Rows.{OF_NODE};
ghost use Rattle.depths.specs.Depths.{OnTwo};
ghost use Rattle.uses.specs.Uses.{BY_NODE, BY_POLICY, Marked};
ghost use Rattle.uses.specs.Under.{capped, both_of, own_slot, size_at, slots_at, under, with_under, gathered_on, under_row, spent_on};

use depths::{Places, is_on_two};
use forms::{AND, NODE, OF_NODE, POLICY, SLOT, SLOT_P};
use table::{SIZES, SLOTS, SPENT, USES, count, item, items, tag};
use words::{put, read};

// Whether a node is a slot, and which: that of the principal, that of the resource. Both where nodes under one have both.
// kept: they stand in a word of the lent slice for each node, so they are numbers (no heap, fixed memory).
pub const NO_SLOT: u32 = 0;

pub const FOR_PRINCIPAL: u32 = 1;

pub const FOR_RESOURCE: u32 = 2;

pub const FOR_BOTH: u32 = 3;

// One node more than policies may use.
pub const MANY: u32 = 1025;

// How many nodes are under a node, itself too, `MANY` for as many or more, and which slots are among them.
#[derive(Clone, Copy)]
pub struct Under {
    pub size: u32,
    pub slots: u32,
}

impl Under {
    // With what is under another node.
    fn with(self, other: Under) -> Under
        ensures { result ≡ with_under self other }
    {
        Under {
            size: sum_of(self.size, other.size),
            slots: both_of(self.slots, other.slots),
        }
    }
}

// The sum, or `MANY`.
fn sum_of(x: u32, y: u32) -> u32
    ensures { result ≡ capped (x + y) }
{
    (x as usize + y as usize).min(MANY as usize) as u32
}

// The slots of both.
fn both_of(x: u32, y: u32) -> u32
    ensures { result ≡ both_of x y }
{
    if x == y {
        return x;
    }
    if x == NO_SLOT {
        return y;
    }
    if y == NO_SLOT {
        return x;
    }
    FOR_BOTH
}

// The slot that a node is.
fn slot_of(line: &[u32]) -> u32
    ensures { result ≡ own_slot line.now }
{
    let t = tag(line);
    if t != SLOT {
        return NO_SLOT;
    }
    if item(line, 2) == SLOT_P {
        return FOR_PRINCIPAL;
    }
    FOR_RESOURCE
}

// What is noted of node `x`: nothing of one that is not there.
pub fn noted(rows: &[u32], work: &[u32], x: u32) -> Under
    ensures { result ≡ under (size_at rows.now work.now x) (slots_at rows.now work.now x) }
{
    if x >= count(rows, NODE) {
        return Under {
            size: 0,
            slots: NO_SLOT,
        };
    }
    Under {
        size: read(work, SIZES + x as usize),
        slots: read(work, SLOTS + x as usize),
    }
}

// With what is noted of node `x`, if its slot refers to one.
fn with_node(rows: &[u32], work: &[u32], slot: u8, x: u32, under: Under) -> Under
    ensures { result ≡ gathered_on rows.now work.now (keep (eqb slot OF_NODE) x []) under }
{
    if slot != OF_NODE {
        return under;
    }
    under.with(noted(rows, work, x))
}

// What is under a row of a node.
fn under_listed(rows: &[u32], work: &[u32], line: &[u32]) -> Under
    ensures { result ≡ under_row rows.now work.now line.now }
{
    let mut places = Places::of(tag(line));
    let mut under = Under {
        size: 1,
        slots: slot_of(line),
    };
    for &x in items(line) {
        under = with_node(rows, work, places.slot(), x, under);
        places = places.after();
    }
    under
}

// The same of a node that works on two.
fn under_two(rows: &[u32], work: &[u32], line: &[u32]) -> Under
    requires { OnTwo line.now }
    ensures { result ≡ under_row rows.now work.now line.now }
{
    let alone = Under {
        size: 1,
        slots: NO_SLOT,
    };
    alone
        .with(noted(rows, work, item(line, 2)))
        .with(noted(rows, work, item(line, 3)))
}

// The same of every node's row; those of the forms before the operations refer to no node.
pub fn under_of(rows: &[u32], work: &[u32], line: &[u32]) -> Under
    ensures { result ≡ under_row rows.now work.now line.now }
{
    if tag(line) < AND {
        return Under {
            size: 1,
            slots: NO_SLOT,
        };
    }
    if is_on_two(line) {
        return under_two(rows, work, line);
    }
    under_listed(rows, work, line)
}

// The uses of nodes by the policies and one more, of this row; `MANY` for as many or more.
pub fn uses_with(rows: &[u32], work: &[u32], line: &[u32]) -> u32
    ensures { result ≡ spent_on rows.now work.now line.now }
{
    sum_of(read(work, SPENT), noted(rows, work, item(line, 3)).size)
}

// What a used node is marked with: by a node, which uses it alone, or by a policy.
// kept: it stands in a word of the lent slice for each node, so it is a number (no heap, fixed memory).
const BY_NODE: u32 = 1;

const BY_POLICY: u32 = 2;

// Marks node `x` as used, if its slot refers to one. Returns whether a node used it before.
fn use_node(rows: &[u32], work: &mut [u32], slot: u8, x: u32, mark: u32) -> bool
    ensures { Marked mark rows.now work.old (keep (eqb slot OF_NODE) x []) work.new result }
{
    if slot != OF_NODE {
        return false;
    }
    if x >= count(rows, NODE) {
        return false;
    }
    let i = USES + x as usize;
    if read(work, i) == BY_NODE {
        return true;
    }
    put(work, i, mark);
    false
}

// Marks the nodes that a node's row uses, in turn. Returns whether one was used before.
fn use_listed(rows: &[u32], work: &mut [u32], line: &[u32]) -> bool
    ensures { Marked BY_NODE rows.now work.old (refs NODE line.now) work.new result }
{
    let mut places = Places::of(tag(line));
    for &x in items(line) {
        if use_node(rows, work, places.slot(), x, BY_NODE) {
            return true;
        }
        places = places.after();
    }
    false
}

// The same of a node that works on two.
fn use_two(rows: &[u32], work: &mut [u32], line: &[u32]) -> bool
    requires { OnTwo line.now }
    ensures { Marked BY_NODE rows.now work.old (refs NODE line.now) work.new result }
{
    let y = item(line, 2);
    let z = item(line, 3);
    use_node(rows, work, OF_NODE, y, BY_NODE) || use_node(rows, work, OF_NODE, z, BY_NODE)
}

// The same of every node's row; those of the forms before the operations use no node.
pub fn use_nodes(rows: &[u32], work: &mut [u32], line: &[u32]) -> bool
    ensures { Marked BY_NODE rows.now work.old (refs NODE line.now) work.new result }
{
    if tag(line) < AND {
        return false;
    }
    if is_on_two(line) {
        return use_two(rows, work, line);
    }
    use_listed(rows, work, line)
}

// Marks the root that a row of a key which is not that of nodes uses, if it is a policy's. Returns whether a node used it before.
pub fn use_root(rows: &[u32], work: &mut [u32], key: usize, line: &[u32]) -> bool
    requires { (key ≡ key_of line.now) × (key ≡ NODE → ⊥) }
    ensures { Marked BY_POLICY rows.now work.old (refs NODE line.now) work.new result }
{
    if key != POLICY {
        return false;
    }
    if line.len() < 4 {
        return false;
    }
    use_node(rows, work, OF_NODE, item(line, 3), BY_POLICY)
}
