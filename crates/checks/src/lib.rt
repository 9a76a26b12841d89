// The checks of one row against the rows that the words hold: limits, references, repeats, order, depth.
#![tactic(auto)]

ghost use Rattle.std.specs.Prelude.{◌≡◌, [], true, cond, ◌&&◌, ◌||◌, not, ◌≤◌, ◌<◌, eqb, length};
ghost use Rattle.std.specs.List.{list_all};
ghost use Rattle.sheet.specs.Forms.{key_of, ascendings, alone_row, mark, no_key, TEXT, TYPE, NODE, LINK, TERM};
ghost use Rattle.sheet.specs.State.{type_row};
ghost use Rattle.sheet.specs.Typing.{on_entity};
ghost use Rattle.sheet.specs.Sheet.{too_many, ascend, among, above, each_alone, new_type, slot_given, term_goes, fresh, found, depth};
ghost use Rattle.table.specs.Layout.{rows_of, held};
ghost use Rattle.seen.specs.Seen.{Unlike};
ghost use Rattle.uses.specs.Under.{Noted};

use depths::{depth_listed, depth_of_node};
use forms::{
    ENTITY, ENTITY_TYPE, FLAT, KIND, LINK, LIT, MARK, POLICY, SET_OF, TERM, TYPE, VALUE, form_of,
};
use order::is_full;
use repeats::{is_first, is_row};
use table::{count, item, items, row, tag};
use uses::{FOR_BOTH, FOR_PRINCIPAL, FOR_RESOURCE, MANY, noted, uses_with};

// Whether a row of a key is one too many, or its policy uses too many nodes.
pub fn too_many(rows: &[u32], work: &[u32], key: usize, line: &[u32]) -> bool
    requires { Noted rows.now work.now }
    ensures { result ≡ too_many (held [] rows.now []) key line.now }
{
    is_full(rows, key) || (key == POLICY && uses_with(rows, work, line) == MANY)
}

// Whether the items of a row that must ascend do. Of a node's none must, before sets and records.
fn ascends(line: &[u32]) -> bool
    ensures { result ≡ ascend 0 (ascendings line.now) }
{
    let t = tag(line);
    if t >= LIT && t < SET_OF {
        return true;
    }
    let form = form_of(t);
    if form.from == FLAT {
        return true;
    }
    let items = items(line);
    let mut least: usize = 0;
    for j in (form.from..items.len()).step_by(form.group) {
        let x = items[j] as usize;
        if x < least {
            return false;
        }
        least = x + 1;
    }
    true
}

// Whether a row is not among those of a key, as is known where it is `new`.
fn is_new(rows: &[u32], key: usize, line: &[u32], new: bool) -> bool
    requires { (1 ≤ length line.now) × Unlike line.now (rows_of rows.now key) new }
    ensures { result ≡ not (among line.now (rows_of rows.now key)) }
{
    new || !is_row(rows, key, line)
}

// Whether a line of a key comes after the last one.
fn is_above(rows: &[u32], key: usize, line: &[u32]) -> bool
    requires { (key ≡ TEXT → ⊥) × (key < no_key) }
    ensures { result ≡ above (held [] rows.now []) key line.now }
{
    let n = count(rows, key);
    n == 0 || item(row(rows, key, n - 1), 1) < item(line, 1)
}

// Whether each of some kinds has a type line alone.
fn each_alone(rows: &[u32], kinds: &[u32]) -> bool
    ensures { result ≡ list_all (λ kind. among (alone_row kind) (rows_of rows.now TYPE)) kinds.now }
{
    kinds
        .iter()
        .all(|&kind| is_row(rows, TYPE, &[ENTITY_TYPE, kind]))
}

// Whether each kind of a group, of two or more, has a type line alone.
fn kinds_alone(rows: &[u32], line: &[u32]) -> bool
    ensures { result ≡ on_entity true (type_row line.now) (each_alone (rows_of rows.now TYPE)) }
{
    if tag(line) != ENTITY_TYPE {
        return true;
    }
    let kinds = items(line);
    kinds.len() < 2 || each_alone(rows, kinds)
}

// Whether a type line repeats no other, as is known where it is `new`, and the kinds that it groups have lines alone.
fn is_type(rows: &[u32], line: &[u32], new: bool) -> bool
    requires { (1 ≤ length line.now) × Unlike line.now (rows_of rows.now TYPE) new }
    ensures { result ≡ new_type (held [] rows.now []) line.now }
{
    is_new(rows, TYPE, line, new) && kinds_alone(rows, line)
}

// Whether a value is given where there is a slot for it, and none where there is not.
fn is_given(there: bool, value: u32) -> bool
    ensures { result ≡ cond there (not (eqb value mark)) (eqb value mark) }
{
    there != (value == MARK)
}

// Whether this slot is among those of a node, which are one or both.
fn has(slots: u32, slot: u32) -> bool
    ensures { result ≡ (eqb slots slot || eqb slots FOR_BOTH) }
{
    slots == slot || slots == FOR_BOTH
}

// Whether a link line gives a value to each slot of its policy, and no other.
fn slots_given(rows: &[u32], work: &[u32], line: &[u32]) -> bool
    requires { Noted rows.now work.now }
    ensures { result ≡ slot_given (held [] rows.now []) line.now 0 && slot_given (held [] rows.now []) line.now 1 }
{
    let root = item(row(rows, POLICY, item(line, 1)), 3);
    let slots = noted(rows, work, root).slots;
    is_given(has(slots, FOR_PRINCIPAL), item(line, 2))
        && is_given(has(slots, FOR_RESOURCE), item(line, 3))
}

// Whether a link line comes after the last one and gives its policy's slots their values.
fn is_link(rows: &[u32], work: &[u32], line: &[u32]) -> bool
    requires { Noted rows.now work.now }
    ensures { result ≡ above (held [] rows.now []) LINK line.now && (slot_given (held [] rows.now []) line.now 0 && slot_given (held [] rows.now []) line.now 1) }
{
    is_above(rows, LINK, line) && slots_given(rows, work, line)
}

// Whether the last day of a term is not before its first.
fn term_goes(line: &[u32]) -> bool
    ensures { result ≡ term_goes line.now }
{
    item(line, 2) <= item(line, 3)
}

// Whether a term line comes after the last one and its days are in order.
fn is_term(rows: &[u32], line: &[u32]) -> bool
    ensures { result ≡ above (held [] rows.now []) TERM line.now && term_goes line.now }
{
    is_above(rows, TERM, line) && term_goes(line)
}

// Whether a row of a key, which is not that of a text, repeats no other, as is known where it is `new`, and keeps their order.
fn is_fresh(rows: &[u32], work: &[u32], key: usize, line: &[u32], new: bool) -> bool
    requires fact { (key ≡ TEXT → ⊥) × (key ≡ key_of line.now) }
    requires noted { Noted rows.now work.now × Unlike line.now (rows_of rows.now key) new }
    ensures { result ≡ fresh (held [] rows.now []) key line.now }
{
    match key {
        TYPE => is_type(rows, line, new),
        VALUE => is_new(rows, key, line, new),
        KIND => !is_first(rows, key, item(line, 1)),
        POLICY => !is_first(rows, key, item(line, 1)),
        ENTITY => is_above(rows, ENTITY, line),
        LINK => is_link(rows, work, line),
        TERM => is_term(rows, line),
        _ => true,
    }
}

// The depth of a node's row, if the lines that it refers to are there and its items ascend. It may repeat another.
pub fn node_depth(rows: &[u32], work: &[u32], line: &[u32]) -> Option<usize>
    ensures { result ≡ cond (found (held [] rows.now []) NODE line.now) (Some (depth (held [] rows.now work.now) NODE line.now)) None }
{
    let depth = depth_of_node(rows, work, line)?;
    if !ascends(line) {
        return None;
    }
    Some(depth)
}

// The depth of a row of a key, which is not that of a text, if the lines that it refers to are there and it is new.
pub fn new_depth(rows: &[u32], work: &[u32], key: usize, line: &[u32], new: bool) -> Option<usize>
    requires fact { (key ≡ TEXT → ⊥) × (key ≡ key_of line.now) × (key < no_key) }
    requires noted { Noted rows.now work.now × Unlike line.now (rows_of rows.now key) new }
    ensures { result ≡ cond (found (held [] rows.now []) key line.now) (Some (depth (held [] rows.now work.now) key line.now)) None }
{
    let depth = depth_listed(rows, work, key, line)?;
    if !ascends(line) {
        return None;
    }
    if !is_fresh(rows, work, key, line, new) {
        return None;
    }
    Some(depth)
}
