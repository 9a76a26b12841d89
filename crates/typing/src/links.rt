// The typing of links: each slot under a policy's root takes one of the link's two values, which fits its type.
ghost use Rattle.std.specs.Prelude.{◌≡◌, ◌<◌};
ghost use Rattle.sheet.specs.Forms.{refs, NODE};
ghost use Rattle.sheet.specs.Typing.{slot_value};
ghost use Rattle.table.specs.Layout.{rows_of};
ghost use Rattle.fits.specs.Fit.{Known, Answered};
ghost use Rattle.typing.specs.Links.{slot_fits, slots_fit_in, child_in, seen_below, seen_from, NodesEnd, link_rule};

use fits::value_fits;
use forms::{HASPATH, LIKE, NODE, OF_NODE, POLICY, SLOT, SLOT_P, code_at, form_of};
use table::{item, row, tag};
use words::cut;

// A tree is never deeper.
const DEPTH: u32 = 64;

// Where the texts of a `like` or `haspath` row begin, behind its tag, type and node.
const TEXTS: usize = 3;

// Of the principal's value `p` and the resource's `q`, that for a slot of this letter.
pub fn slot_value(p: u32, q: u32, letter: u32) -> u32
    ensures { result ≡ slot_value p q letter }
{
    if letter == SLOT_P {
        return p;
    }
    q
}

// Whether the value for a node's row fits its type, where it is a slot.
fn slot_fits(rows: &[u32], work: &mut [u32], line: &[u32], p: u32, q: u32) -> bool
    requires { Known rows.now work.old }
    ensures { Answered rows.now work.old work.new (slot_fits rows.now p q line.now) result }
{
    if tag(line) != SLOT {
        return true;
    }
    value_fits(rows, work, slot_value(p, q, item(line, 2)), item(line, 1))
}

// Where the places of a node's row end at which nodes may stand: behind the node of `like` and `haspath` only texts stand.
fn nodes_end(line: &[u32]) -> usize
    ensures { NodesEnd line.now result }
{
    if line.len() <= TEXTS {
        return line.len();
    }
    match tag(line) {
        LIKE => TEXTS,
        HASPATH => TEXTS,
        _ => line.len(),
    }
}

// Whether the values for all slots under a node fit, with so much depth left.
#[cycle(below_fits_child_fits_under_fits)]
fn under_fits(rows: &[u32], work: &mut [u32], node: u32, p: u32, q: u32, depth: u32) -> bool
    requires { Known rows.now work.old }
    ensures { Answered rows.now work.old work.new (slots_fit_in rows.now p q (seen_from (rows_of rows.now NODE) depth node)) result }
{
    if depth == 0 {
        return true;
    }
    let line = row(rows, NODE, node);
    if !slot_fits(rows, work, line, p, q) {
        return false;
    }
    below_fits(rows, work, line, node, p, q, depth - 1)
}

// The same under an item of a node's row, if its code says that it is a node. Only a node that stands before the row's has a part in it.
#[cycle(below_fits_child_fits_under_fits)]
fn child_fits(
    rows: &[u32],
    work: &mut [u32],
    code: u8,
    child: u32,
    node: u32,
    p: u32,
    q: u32,
    depth: u32,
) -> bool
    requires { Known rows.now work.old }
    ensures { Answered rows.now work.old work.new (slots_fit_in rows.now p q (seen_below (seen_from (rows_of rows.now NODE) depth) node (child_in code child))) result }
{
    if code != OF_NODE {
        return true;
    }
    if child >= node {
        return true;
    }
    under_fits(rows, work, child, p, q, depth)
}

// The same under all nodes that the row of a node refers to.
#[cycle(below_fits_child_fits_under_fits)]
fn below_fits(
    rows: &[u32],
    work: &mut [u32],
    line: &[u32],
    node: u32,
    p: u32,
    q: u32,
    depth: u32,
) -> bool
    requires { Known rows.now work.old }
    ensures { Answered rows.now work.old work.new (slots_fit_in rows.now p q (seen_below (seen_from (rows_of rows.now NODE) depth) node (refs NODE line.now))) result }
{
    let form = form_of(tag(line));
    for (j, &child) in cut(line, 1, nodes_end(line)).iter().enumerate() {
        if !child_fits(rows, work, code_at(form, j), child, node, p, q, depth) {
            return false;
        }
    }
    true
}

// Whether the values of a link line fit the slots of its policy.
pub fn link_typed(rows: &[u32], work: &mut [u32], line: &[u32]) -> bool
    requires { Known rows.now work.old }
    ensures { Answered rows.now work.old work.new (link_rule rows.now line.now) result }
{
    let root = item(row(rows, POLICY, item(line, 1)), 3);
    let p = item(line, 2);
    let q = item(line, 3);
    under_fits(rows, work, root, p, q, DEPTH)
}
