// What an operation gives over its worked operands, by the node's tag, on a complete sheet.
ghost use Rattle.std.specs.Prelude.{◌≡◌, true, ◌≤◌, ◌<◌, get_or, drop};
ghost use Rattle.forms.specs.Tags.{EQ, IF, IS, SET_OF};
ghost use Rattle.strict.specs.Gives.{out_of, like_out};
ghost use Rattle.lookup.specs.Lookups.{value_in};
ghost use Rattle.table.specs.Layout.{text_at};
ghost use Rattle.walk.specs.Walks.{walk_from};
ghost use Rattle.evaluator.specs.Run.{node_in, walked_out, walk_out, two_out, one_out};

use forms::{
    ALL, ANY, CONTAINS, EQ, GET, GETTAG, HAS, HASPATH, HASTAG, IN, IS, LIKE, NEG, NODE, NOT,
};
use strict::entity::{get_of, gettag_of, has_of, hastag_of, in_of};
use strict::{
    Given, all_of, any_of, arith_of, contains_of, empty_of, eq_of, is_of, like_of, neg_of, not_of,
};
use table::{item, row};
use walk::{Walked, walk};
use words::cut;

// Word `j` of the node.
pub fn word_of(rows: &[u32], node: u32, j: usize) -> u32
    ensures { result ≡ get_or (node_in rows.now node) j 0 }
{
    item(row(rows, NODE, node), j)
}

// The words of the node from its fourth on: the pattern of a `like`.
fn rest_of(rows: &[u32], node: u32) -> &[u32]
    ensures { result.now ≡ drop 3 (node_in rows.now node) }
{
    let line = row(rows, NODE, node);
    cut(line, 3, line.len())
}

// Whether the value matches the pattern of the node.
fn like_at(sheet: &[u8], rows: &[u32], node: u32, value: u32) -> Given
    ensures { out_of result ≡ like_out (text_at sheet.now rows.now) (drop 3 (node_in rows.now node)) (value_in rows.now value) }
{
    like_of(sheet, rows, value, rest_of(rows, node))
}

// Whether the path of texts is there from the value on.
fn walked(rows: &[u32], value: u32, path: &[u32]) -> Given
    ensures { out_of result ≡ walked_out (walk_from true rows.now value 0 path.now) }
{
    match walk(rows, true, value, path) {
        Walked::Holds(x) => Given::Bool(x),
        Walked::Fails => Given::Fails,
        Walked::Left(_, _, _) => Given::Stays,
    }
}

// Whether the path of the row, a node's or one with the texts of such from a later one on, is there from the value on.
pub fn path_at(rows: &[u32], line: &[u32], value: u32) -> Given
    ensures { out_of result ≡ walk_out rows.now line.now value }
{
    let path = cut(line, 3, line.len());
    if path.len() < 1 {
        return walked(rows, value, &[0]);
    }
    walked(rows, value, path)
}

// Over one operand: is, like, get, has, haspath, not, neg, empty.
pub fn one_given(sheet: &[u8], rows: &[u32], node: u32, tag: u32, value: u32) -> Given
    requires { (IS ≤ tag) × (tag < SET_OF) }
    ensures { out_of result ≡ one_out sheet.now tag rows.now (node_in rows.now node) value }
{
    match tag {
        IS => is_of(rows, value, word_of(rows, node, 3)),
        LIKE => like_at(sheet, rows, node, value),
        GET => get_of(rows, true, value, word_of(rows, node, 3)),
        HAS => has_of(rows, true, value, word_of(rows, node, 3)),
        HASPATH => path_at(rows, row(rows, NODE, node), value),
        NOT => not_of(rows, value),
        NEG => neg_of(rows, value),
        _ => empty_of(rows, value),
    }
}

// Over two operands: eq, lt, le, add, sub, mul, in, gettag, hastag, contains, all, any.
pub fn two_given(rows: &[u32], tag: u32, left: u32, right: u32) -> Given
    requires { (EQ ≤ tag) × (tag < IF) }
    ensures { out_of result ≡ two_out tag rows.now left right }
{
    match tag {
        EQ => eq_of(left, right),
        IN => in_of(rows, true, left, right),
        GETTAG => gettag_of(rows, true, left, right),
        HASTAG => hastag_of(rows, true, left, right),
        CONTAINS => contains_of(rows, left, right),
        ALL => all_of(rows, left, right),
        ANY => any_of(rows, left, right),
        _ => arith_of(rows, tag, left, right),
    }
}
