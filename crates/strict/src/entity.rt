// Operations on entities: their attributes, tags and ancestors, known in part. On a complete sheet an unlisted entity has none.
// Ancestors are found through parents at each `in`, by marks on the stack.
ghost use Rattle.std.specs.Prelude.{◌≡◌, ◌<◌, length};
ghost use Rattle.words.specs.Log.{part};
ghost use Rattle.sheet.specs.Forms.{ENTITY};
ghost use Rattle.cedar.specs.Numbered.{all_rent};
ghost use Rattle.reach.specs.Marks.{FAR, Filled};
ghost use Rattle.strict.specs.Gives.{out_of};
ghost use Rattle.lookup.specs.Lookups.{values, TAGS};
ghost use Rattle.strict.specs.Entities.{taken_of, present_of, get_out, has_out, tag_look, gettag_out, hastag_out, is_rent_at, in_unknown_out, Unknowns, Above, in_line_out, in_unlisted_out, in_list_out, in_out};

use crate::Given;
use forms::ENTITY;
use lookup::{Look, TAGS, line_of, look_attr, look_in, part_of};
use reach::{MARKS, VALUES, meets_above, open_above, reach};
use table::{item, items, row};
use value::{Shape, contains, row_of, shape_of};

// What was found; an error where it is missing.
fn taken(look: Look) -> Given
    ensures { result ≡ taken_of look }
{
    match look {
        Look::At(x) => Given::Old(x),
        Look::Missing => Given::Fails,
        Look::Unknown(_) => Given::Stays,
        Look::Bad => Given::Fails,
    }
}

// Whether something was found.
fn present(look: Look) -> Given
    ensures { result ≡ present_of look }
{
    match look {
        Look::At(_) => Given::Bool(true),
        Look::Missing => Given::Bool(false),
        Look::Unknown(_) => Given::Stays,
        Look::Bad => Given::Fails,
    }
}

// An attribute of a record or an entity.
pub fn get_of(rows: &[u32], complete: bool, value: u32, text: u32) -> Given
    ensures { out_of result ≡ get_out complete rows.now value text }
{
    taken(look_attr(rows, complete, value, text))
}

// Whether a record or an entity has an attribute.
pub fn has_of(rows: &[u32], complete: bool, value: u32, text: u32) -> Given
    ensures { out_of result ≡ has_out complete rows.now value text }
{
    present(look_attr(rows, complete, value, text))
}

// A tag of an entity, by the number of its name.
fn look_tag(rows: &[u32], complete: bool, left: u32, right: u32) -> Look
    ensures { result ≡ tag_look complete rows.now left right }
{
    let s = shape_of(row_of(rows, left as usize));
    let Shape::Entity(k, t) = s else {
        return Look::Bad;
    };
    let d = shape_of(row_of(rows, right as usize));
    let Shape::Text(u) = d else {
        return Look::Bad;
    };
    look_in(rows, k, part_of(rows, complete, left, k, t, TAGS), u)
}

// A tag of an entity.
pub fn gettag_of(rows: &[u32], complete: bool, left: u32, right: u32) -> Given
    ensures { out_of result ≡ gettag_out complete rows.now left right }
{
    taken(look_tag(rows, complete, left, right))
}

// Whether an entity has a tag.
pub fn hastag_of(rows: &[u32], complete: bool, left: u32, right: u32) -> Given
    ensures { out_of result ≡ hastag_out complete rows.now left right }
{
    present(look_tag(rows, complete, left, right))
}

// Whether a value is an entity.
fn is_one(rows: &[u32], value: u32) -> bool
    ensures { result ≡ is_rent_at rows.now value }
{
    let s = shape_of(row_of(rows, value as usize));
    let Shape::Entity(_, _) = s else {
        return false;
    };
    true
}

// Whether all of these values are entities.
fn all_entities(rows: &[u32], list: &[u32]) -> bool
    ensures { result ≡ all_rent (values rows.now) list.now }
{
    for &v in list {
        if !is_one(rows, v) {
            return false;
        }
    }
    true
}

// Whether an entity whose ancestors are unknown is among these.
fn in_unknown(value: u32, list: &[u32]) -> Given
    ensures { out_of result ≡ in_unknown_out value list.now }
{
    if contains(list, value) {
        return Given::Bool(true);
    }
    if list.len() == 0 {
        return Given::Bool(false);
    }
    Given::Stays
}

// Whether the ancestors of entity `listed`, whose marks these are, are unknown.
fn is_unknown(rows: &[u32], complete: bool, listed: u32, marks: &[u32]) -> bool
    ensures { Unknowns complete rows.now listed marks.now result }
{
    if complete {
        return false;
    }
    open_above(rows, marks)
}

// The same of one of these, with tables for what is met and marked.
fn in_found(
    rows: &[u32],
    complete: bool,
    value: u32,
    listed: u32,
    list: &[u32],
    met: &mut [u8],
    marks: &mut [u32],
) -> Given
    requires in_bounds { FAR < length marks.old }
    requires filled { Filled 0 met.old × Filled 0 marks.old }
    ensures { Above complete rows.now value listed list.now result }
{
    reach(rows, listed, met, marks);
    if is_unknown(rows, complete, listed, marks) {
        return Given::Stays;
    }
    Given::Bool(meets_above(rows, list, met, marks))
}

// Whether an ancestor of entity `value`, whose line names it `listed`, is among these; itself it is not.
fn in_above(rows: &[u32], complete: bool, value: u32, listed: u32, list: &[u32]) -> Given
    ensures { Above complete rows.now value listed list.now result }
{
    let mut marks: [u32; MARKS] = [0; MARKS];
    let mut met: [u8; VALUES] = [0; VALUES];
    in_found(
        rows,
        complete,
        value,
        listed,
        list,
        &mut met[..],
        &mut marks[..],
    )
}

// Whether entity `value`, whose line names it `listed`, or one of its ancestors is among these.
fn in_line(rows: &[u32], complete: bool, value: u32, listed: u32, list: &[u32]) -> Given
    ensures { out_of result ≡ in_line_out complete rows.now value listed list.now }
{
    if contains(list, value) {
        return Given::Bool(true);
    }
    if list.len() == 0 {
        return Given::Bool(false);
    }
    in_above(rows, complete, value, listed, list)
}

// Whether an entity that is not listed is among these.
fn in_unlisted(complete: bool, value: u32, list: &[u32]) -> Given
    ensures { out_of result ≡ in_unlisted_out complete value list.now }
{
    if complete {
        return Given::Bool(contains(list, value));
    }
    in_unknown(value, list)
}

// Whether an entity, of this kind and text, or one of its ancestors is among these.
fn in_list(rows: &[u32], complete: bool, value: u32, kind: u32, text: u32, list: &[u32]) -> Given
    ensures { out_of result ≡ in_list_out complete rows.now value kind text list.now }
{
    let Some(i) = line_of(rows, value, kind, text) else {
        return in_unlisted(complete, value, list);
    };
    in_line(rows, complete, value, item(row(rows, ENTITY, i), 1), list)
}

// Whether an entity is in another or in one of a set.
pub fn in_of(rows: &[u32], complete: bool, left: u32, right: u32) -> Given
    ensures { out_of result ≡ in_out complete rows.now left right }
{
    let s = shape_of(row_of(rows, left as usize));
    let Shape::Entity(k, t) = s else {
        return Given::Fails;
    };
    let q = row_of(rows, right as usize);
    let d = shape_of(q);
    match d {
        Shape::Entity(_, _) => in_list(rows, complete, left, k, t, &[right]),
        Shape::Set => {
            let l = items(q);
            if !all_entities(rows, l) {
                return Given::Fails;
            }
            in_list(rows, complete, left, k, t, l)
        }
        _ => Given::Fails,
    }
}
