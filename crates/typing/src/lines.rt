// The typing of lines: one rule for each key.
ghost use Rattle.std.specs.Prelude.{◌≡◌};
ghost use Rattle.sheet.specs.Forms.{ENTITY, CONTEXT, NODE, LINK};
ghost use Rattle.fits.specs.Fit.{Known, Answered};
ghost use Rattle.typing.specs.Rules.{shape_rule, context_rule, policy_rule, attributes_rule, tags_rule, ancestor_rule, parents_rule, entity_rule, typed_rule, Typed};
ghost use Rattle.typerows.specs.Types.{above_at, is_above_at};
ghost use Rattle.typesets.specs.Sets.{Each, with_all};

use crate::links::link_typed;
use crate::nodes::{child, node_typed};
use fits::{tags_fit, value_fits};
use forms::{
    ACTION, CONTEXT, ENTITY, ENTITY_VALUE, LINK, MARK, NO_KEY, NODE, POLICY, PRINCIPAL,
    RECORD_VALUE, RESOURCE, SET_VALUE, SHAPE, VALUE,
};
use table::{count, item, items, row, tag};
use typerows::{
    BOOL_SORT, attribute_type, is_above, is_action, is_bare, kinds_above, record_of, request, sort,
    tag_type,
};
use typesets::KIND_WORDS;
use words::{add, has};

// ---- shapes

fn shape_typed(rows: &[u32], line: &[u32]) -> bool
    ensures { result ≡ shape_rule rows.now line.now }
{
    let Some(y) = record_of(rows, item(line, 1)) else {
        return false;
    };
    if !is_action(rows, count(rows, SHAPE)) {
        return true;
    }
    if !is_bare(rows, y) {
        return false;
    }
    item(line, 2) == MARK
}

// ---- entities

// The attributes of an entity of a kind, or a mark.
fn attributes_typed(rows: &[u32], work: &mut [u32], value: u32, kind: u32) -> bool
    requires { Known rows.now work.old }
    ensures { Answered rows.now work.old work.new (attributes_rule rows.now value kind) result }
{
    if value == MARK {
        return true;
    }
    let q = row(rows, VALUE, value);
    if tag(q) == RECORD_VALUE {
        return value_fits(rows, work, value, attribute_type(rows, kind));
    }
    false
}

// The tags of an entity of a kind, or a mark.
fn tags_typed(rows: &[u32], work: &mut [u32], value: u32, kind: u32) -> bool
    requires { Known rows.now work.old }
    ensures { Answered rows.now work.old work.new (tags_rule rows.now value kind) result }
{
    if value == MARK {
        return true;
    }
    let q = row(rows, VALUE, value);
    if tag(q) != RECORD_VALUE {
        return false;
    }
    let y = tag_type(rows, kind);
    if y == MARK {
        return q.len() < 3;
    }
    tags_fit(rows, work, q, y)
}

// Whether a value is an entity whose kind is above this one.
pub fn is_ancestor(rows: &[u32], value: u32, kind: u32) -> bool
    ensures { result ≡ ancestor_rule rows.now value kind }
{
    let q = row(rows, VALUE, value);
    if tag(q) == ENTITY_VALUE {
        return is_above(rows, kind, item(q, 1));
    }
    false
}

// The kinds above this one join a set, as far as it has words for them.
pub fn add_above(rows: &[u32], above: &mut [u32], kind: u32)
    ensures { above.new ≡ with_all above.old (above_at rows.now kind) }
{
    for &kind in kinds_above(rows, kind) {
        add(above, kind as usize);
    }
}

// Whether a value is an entity whose kind is above this one, with a set of kinds that are; others are looked up.
pub fn is_ancestor_by(rows: &[u32], above: &[u32], value: u32, kind: u32) -> bool
    requires { Each above.now (is_above_at rows.now kind) }
    ensures { result ≡ ancestor_rule rows.now value kind }
{
    let q = row(rows, VALUE, value);
    if tag(q) != ENTITY_VALUE {
        return false;
    }
    let k = item(q, 1);
    if has(above, k as usize) {
        return true;
    }
    is_above(rows, kind, k)
}

// The parents of an entity of a kind, or a mark.
fn parents_typed(rows: &[u32], value: u32, kind: u32) -> bool
    ensures { result ≡ parents_rule rows.now value kind }
{
    if value == MARK {
        return true;
    }
    let q = row(rows, VALUE, value);
    if tag(q) != SET_VALUE {
        return false;
    }
    let mut above = [0u32; KIND_WORDS];
    add_above(rows, &mut above, kind);
    for &parent in items(q) {
        if !is_ancestor_by(rows, &above, parent, kind) {
            return false;
        }
    }
    true
}

fn entity_typed(rows: &[u32], work: &mut [u32], line: &[u32]) -> bool
    requires { Known rows.now work.old }
    ensures { Answered rows.now work.old work.new (entity_rule rows.now line.now) result }
{
    let q = row(rows, VALUE, item(line, 1));
    if tag(q) != ENTITY_VALUE {
        return false;
    }
    let k = item(q, 1);
    if !attributes_typed(rows, work, item(line, 2), k) {
        return false;
    }
    if !tags_typed(rows, work, item(line, 3), k) {
        return false;
    }
    parents_typed(rows, item(line, 4), k)
}

// ---- the request, policies

fn context_typed(rows: &[u32], work: &mut [u32], line: &[u32]) -> bool
    requires { Known rows.now work.old }
    ensures { Answered rows.now work.old work.new (context_rule rows.now line.now) result }
{
    let y = item(line, 1);
    if record_of(rows, y).is_none() {
        return false;
    }
    let x = item(line, 2);
    if x == MARK {
        return true;
    }
    value_fits(rows, work, x, y)
}

fn policy_typed(rows: &[u32], line: &[u32]) -> bool
    ensures { result ≡ policy_rule rows.now line.now }
{
    sort(rows, child(rows, line, 3)) == BOOL_SORT
}

// ---- any key

// The rules that ask for no value.
fn key_typed(rows: &[u32], line: &[u32], key: usize) -> bool
    requires { (key ≡ ENTITY → ⊥) × (key ≡ CONTEXT → ⊥) × (key ≡ NODE → ⊥) × (key ≡ LINK → ⊥) }
    ensures { result ≡ typed_rule rows.now line.now key }
{
    match key {
        SHAPE => shape_typed(rows, line),
        PRINCIPAL => !is_action(rows, item(line, 1)),
        ACTION => is_action(rows, item(line, 1)),
        RESOURCE => !is_action(rows, item(line, 1)),
        POLICY => policy_typed(rows, line),
        _ => key < NO_KEY,
    }
}

fn line_typed(rows: &[u32], work: &mut [u32], line: &[u32], key: usize) -> bool
    requires { Known rows.now work.old }
    ensures { Answered rows.now work.old work.new (typed_rule rows.now line.now key) result }
{
    match key {
        ENTITY => entity_typed(rows, work, line),
        CONTEXT => context_typed(rows, work, line),
        NODE => node_typed(rows, work, line),
        LINK => link_typed(rows, work, line),
        _ => key_typed(rows, line, key),
    }
}

// Whether the row of a line of a key is typed.
pub fn typed(rows: &[u32], work: &mut [u32], line: &[u32], key: usize) -> bool
    requires { Known rows.now work.old }
    ensures { Typed rows.now work.old work.new line.now key result }
{
    line_typed(rows, work, line, key)
}
