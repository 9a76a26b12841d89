// The typing of nodes: one rule for each operation.
ghost use Rattle.std.specs.Prelude.{◌≡◌, ◌-◌, ◌≤◌, drop};
ghost use Rattle.sheet.specs.Forms.{tag, first_node};
ghost use Rattle.forms.specs.Tags.{ERR, CONTAINS, ALL, SLOT};
ghost use Rattle.sheet.specs.Typing.{all_in};
ghost use Rattle.fits.specs.Fit.{kinds_in, Known, Answered};
ghost use Rattle.typerows.specs.Types.{tags_are};
ghost use Rattle.typing.specs.Rules.{node_type_at, all_of, args_fit, child_at, two_sorts, three_sorts, request_is, var_rule, eq_rule, in_rule, gettag_rule, contains_rule, two_sets_rule, if_rule, get_rule, has_rule, haspath_rule, set_rule, record_rule, slot_rule, node_rule};

use fits::{complete, kinds, value_fits};
use forms::{
    ACTION, ADD, ALL, AND, ANY, CONTAINS, CONTEXT, EMPTY, ENTITY_TYPE, EQ, ERR, GET, GETTAG, HAS,
    HASPATH, HASTAG, IF, IN, IS, LE, LIKE, LIT, LT, MUL, NEG, NODE, NOT, OR, PART_A, PART_P,
    PART_R, PRINCIPAL, RECORD_OF, RESOURCE, SET_OF, SLOT, SUB, TYPE, VAR,
};
use pathtypes::path_typed;
use table::{item, items, row, tag};
use typerows::{
    BOOL_SORT, ENTITY_SORT, LONG_SORT, SET_SORT, STRING_SORT, attribute, declares, element_of,
    is_record, is_target, kinds_declare, kinds_have, record_of, request, sort, tag_type,
};
use words::cut;

// ---- the types of a node and its children

pub fn node_type(rows: &[u32], node: u32) -> u32
    ensures { result ≡ node_type_at rows.now node }
{
    let q = row(rows, NODE, node);
    item(q, 1)
}

// The type of the node that word `i` of the row names.
pub fn child(rows: &[u32], line: &[u32], i: usize) -> u32
    ensures { result ≡ child_at rows.now line.now i }
{
    node_type(rows, item(line, i))
}

// Whether the types of the node and its first child are of these sorts. Children are asked for with slices of their own, here and below, so that these
// stay out of memory (docs/DECISIONS.md).
fn two_sorts(rows: &[u32], line: &[u32], own: u32, first: u32) -> bool
    ensures { result ≡ two_sorts rows.now line.now own first }
{
    if sort(rows, item(line, 1)) == own {
        return sort(rows, child(&rows[..], &line[..], 2)) == first;
    }
    false
}

// Those of the node and its first two children.
fn three_sorts(rows: &[u32], line: &[u32], own: u32, first: u32, second: u32) -> bool
    ensures { result ≡ three_sorts rows.now line.now own first second }
{
    if two_sorts(&rows[..], &line[..], own, first) {
        return sort(rows, child(&rows[..], &line[..], 3)) == second;
    }
    false
}

// ---- variables

// Whether the node's type is that of the one kind that a line of the request names.
fn request_is(rows: &[u32], line: &[u32], key: usize) -> bool
    ensures { result ≡ request_is rows.now line.now key }
{
    let q = row(rows, TYPE, item(line, 1));
    if tag(q) != ENTITY_TYPE {
        return false;
    }
    if q.len() > 2 {
        return false;
    }
    item(q, 1) == request(rows, key)
}

fn var_typed(rows: &[u32], line: &[u32]) -> bool
    ensures { result ≡ var_rule rows.now line.now }
{
    match item(line, 2) {
        PART_P => request_is(rows, line, PRINCIPAL),
        PART_A => request_is(rows, line, ACTION),
        PART_R => request_is(rows, line, RESOURCE),
        _ => item(line, 1) == request(rows, CONTEXT),
    }
}

// ---- operations on entities and sets

fn eq_typed(rows: &[u32], line: &[u32]) -> bool
    ensures { result ≡ eq_rule rows.now line.now }
{
    if sort(rows, item(line, 1)) != BOOL_SORT {
        return false;
    }
    let x = child(rows, line, 2);
    let y = child(rows, line, 3);
    if x == y {
        return true;
    }
    if sort(rows, x) == ENTITY_SORT {
        return sort(rows, y) == ENTITY_SORT;
    }
    false
}

fn in_typed(rows: &[u32], line: &[u32]) -> bool
    ensures { result ≡ in_rule rows.now line.now }
{
    if !two_sorts(rows, line, BOOL_SORT, ENTITY_SORT) {
        return false;
    }
    is_target(rows, child(rows, line, 3))
}

// Whether the tags of each kind of an entity type's row have this type.
fn kinds_tags_are(rows: &[u32], type_row: &[u32], ty: u32) -> bool
    ensures { result ≡ all_in (tags_are rows.now ty) (kinds_in type_row.now) }
{
    kinds(type_row)
        .iter()
        .all(|&kind| tag_type(rows, kind) == ty)
}

fn gettag_typed(rows: &[u32], line: &[u32]) -> bool
    ensures { result ≡ gettag_rule rows.now line.now }
{
    if sort(rows, child(rows, line, 3)) != STRING_SORT {
        return false;
    }
    let q = row(rows, TYPE, child(rows, line, 2));
    if tag(q) != ENTITY_TYPE {
        return false;
    }
    kinds_tags_are(rows, q, item(line, 1))
}

fn contains_typed(rows: &[u32], line: &[u32]) -> bool
    ensures { result ≡ contains_rule rows.now line.now }
{
    if sort(rows, item(line, 1)) != BOOL_SORT {
        return false;
    }
    let Some(e) = element_of(rows, child(rows, line, 2)) else {
        return false;
    };
    e == child(rows, line, 3)
}

fn two_sets(rows: &[u32], line: &[u32]) -> bool
    ensures { result ≡ two_sets_rule rows.now line.now }
{
    if !two_sorts(rows, line, BOOL_SORT, SET_SORT) {
        return false;
    }
    child(rows, line, 2) == child(rows, line, 3)
}

fn if_typed(rows: &[u32], line: &[u32]) -> bool
    ensures { result ≡ if_rule rows.now line.now }
{
    if sort(rows, child(rows, line, 2)) != BOOL_SORT {
        return false;
    }
    let y = item(line, 1);
    if child(rows, line, 3) != y {
        return false;
    }
    child(rows, line, 4) == y
}

// ---- attributes

fn get_typed(rows: &[u32], line: &[u32]) -> bool
    ensures { result ≡ get_rule rows.now line.now }
{
    let y = child(rows, line, 2);
    let q = row(rows, TYPE, y);
    if tag(q) == ENTITY_TYPE {
        return kinds_declare(rows, q, item(line, 3), item(line, 1));
    }
    declares(rows, y, item(line, 3), item(line, 1))
}

fn has_typed(rows: &[u32], line: &[u32]) -> bool
    ensures { result ≡ has_rule rows.now line.now }
{
    if sort(rows, item(line, 1)) != BOOL_SORT {
        return false;
    }
    let y = child(rows, line, 2);
    let q = row(rows, TYPE, y);
    if tag(q) == ENTITY_TYPE {
        return kinds_have(rows, q);
    }
    is_record(rows, y)
}

fn haspath_typed(rows: &[u32], line: &[u32]) -> bool
    ensures { result ≡ haspath_rule rows.now line.now }
{
    if sort(rows, item(line, 1)) != BOOL_SORT {
        return false;
    }
    path_typed(rows, line, child(rows, line, 2))
}

// ---- sets and records

// Whether the children from word 2 on have this type.
fn children_are(rows: &[u32], line: &[u32], ty: u32) -> bool
    ensures { result ≡ all_of rows.now (drop 2 line.now) ty }
{
    cut(line, 2, line.len())
        .iter()
        .all(|&node| node_type(rows, node) == ty)
}

fn set_typed(rows: &[u32], line: &[u32]) -> bool
    ensures { result ≡ set_rule rows.now line.now }
{
    let Some(e) = element_of(rows, item(line, 1)) else {
        return false;
    };
    children_are(rows, line, e)
}

// Whether a record type declares each child's type for its text, from word 2 on.
fn args_fit(rows: &[u32], line: &[u32], ty: u32) -> bool
    ensures { result ≡ args_fit rows.now (drop 2 line.now) ty }
{
    let mut rest = cut(line, 2, line.len());
    while let [text, node, others @ ..] = rest {
        let Some(z) = attribute(rows, ty, *text) else {
            return false;
        };
        if node_type(rows, *node) != z {
            return false;
        }
        rest = others;
    }
    true
}

fn record_typed(rows: &[u32], line: &[u32]) -> bool
    ensures { result ≡ record_rule rows.now line.now }
{
    let Some(y) = record_of(rows, item(line, 1)) else {
        return false;
    };
    if !complete(items(line), row(rows, TYPE, y)) {
        return false;
    }
    args_fit(rows, line, y)
}

// ---- slots

fn slot_typed(rows: &[u32], line: &[u32]) -> bool
    ensures { result ≡ slot_rule rows.now line.now }
{
    sort(rows, item(line, 1)) == ENTITY_SORT
}

// ---- the rule of each operation

fn first_rules(rows: &[u32], line: &[u32], tag: u32) -> bool
    requires { (ERR ≤ tag) × (tag ≤ CONTAINS) }
    ensures { result ≡ node_rule rows.now line.now (tag - first_node) }
{
    match tag {
        ERR => true,
        VAR => var_typed(rows, line),
        AND => three_sorts(rows, line, BOOL_SORT, BOOL_SORT, BOOL_SORT),
        OR => three_sorts(rows, line, BOOL_SORT, BOOL_SORT, BOOL_SORT),
        EQ => eq_typed(rows, line),
        LT => three_sorts(rows, line, BOOL_SORT, LONG_SORT, LONG_SORT),
        LE => three_sorts(rows, line, BOOL_SORT, LONG_SORT, LONG_SORT),
        ADD => three_sorts(rows, line, LONG_SORT, LONG_SORT, LONG_SORT),
        SUB => three_sorts(rows, line, LONG_SORT, LONG_SORT, LONG_SORT),
        MUL => three_sorts(rows, line, LONG_SORT, LONG_SORT, LONG_SORT),
        IN => in_typed(rows, line),
        GETTAG => gettag_typed(rows, line),
        HASTAG => three_sorts(rows, line, BOOL_SORT, ENTITY_SORT, STRING_SORT),
        _ => contains_typed(rows, line),
    }
}

fn last_rules(rows: &[u32], line: &[u32], tag: u32) -> bool
    requires { (ALL ≤ tag) × (tag ≤ SLOT) }
    ensures { result ≡ node_rule rows.now line.now (tag - first_node) }
{
    match tag {
        ALL => two_sets(rows, line),
        ANY => two_sets(rows, line),
        IF => if_typed(rows, line),
        IS => two_sorts(rows, line, BOOL_SORT, ENTITY_SORT),
        LIKE => two_sorts(rows, line, BOOL_SORT, STRING_SORT),
        GET => get_typed(rows, line),
        HAS => has_typed(rows, line),
        HASPATH => haspath_typed(rows, line),
        NOT => two_sorts(rows, line, BOOL_SORT, BOOL_SORT),
        NEG => two_sorts(rows, line, LONG_SORT, LONG_SORT),
        EMPTY => two_sorts(rows, line, BOOL_SORT, SET_SORT),
        SET_OF => set_typed(rows, line),
        RECORD_OF => record_typed(rows, line),
        _ => slot_typed(rows, line),
    }
}

// Whether a node's row is typed; a row of an earlier form is taken as a literal, one of a later form is not typed.
pub fn node_typed(rows: &[u32], work: &mut [u32], line: &[u32]) -> bool
    requires { Known rows.now work.old }
    ensures { Answered rows.now work.old work.new (node_rule rows.now line.now (tag line.now - first_node)) result }
{
    let op = tag(line);
    if op <= LIT {
        return value_fits(rows, work, item(line, 2), item(line, 1));
    }
    if op <= CONTAINS {
        return first_rules(rows, line, op);
    }
    if op <= SLOT {
        return last_rules(rows, line, op);
    }
    false
}
