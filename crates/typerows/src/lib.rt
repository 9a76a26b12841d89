// Types, shapes, kinds and the request, by their numbers.
#![tactic(auto)]

ghost use Rattle.std.specs.Prelude.{◌≡◌, ◌||◌, eqb};
ghost use Rattle.sheet.specs.Typing.{all_in};
ghost use Rattle.fits.specs.Fit.{found_in, kinds_in};
ghost use Rattle.typesets.specs.Sets.{Each};
ghost use Rattle.typerows.specs.Types.{always, sort_at, element_at, record_at, attribute_at, bare_at, attribute_type_at, tag_type_at, above_at, is_above_at, action_at, of_record, target_at, request_at, of_kind, declares_as};

use fits::{declared, kinds};
use forms::{
    BOOL_TYPE, ENTITY_TYPE, KIND, LONG_TYPE, OF_ACTIONS, RECORD_TYPE, SET_TYPE, SHAPE, STRING_TYPE,
    TYPE,
};
use table::{item, row, tag};
use typesets::TYPE_WORDS;
use words::{add, has};

// The sorts of types: the places of their forms among the forms of types.
pub const BOOL_SORT: u32 = 0;

pub const LONG_SORT: u32 = LONG_TYPE - BOOL_TYPE;

pub const STRING_SORT: u32 = STRING_TYPE - BOOL_TYPE;

pub const ENTITY_SORT: u32 = ENTITY_TYPE - BOOL_TYPE;

pub const SET_SORT: u32 = SET_TYPE - BOOL_TYPE;

// The sort of a type; a row of no form counts as a bool.
pub fn sort(rows: &[u32], ty: u32) -> u32
    ensures { result ≡ sort_at rows.now ty }
{
    let q = row(rows, TYPE, ty);
    let k = tag(q);
    if k < LONG_TYPE {
        return BOOL_SORT;
    }
    if k > RECORD_TYPE {
        return BOOL_SORT;
    }
    k - BOOL_TYPE
}

// The type of a set's elements, if a type is a set.
pub fn element_of(rows: &[u32], ty: u32) -> Option<u32>
    ensures { found_in result ≡ element_at rows.now ty }
{
    let q = row(rows, TYPE, ty);
    if tag(q) == SET_TYPE {
        return Some(item(q, 1));
    }
    None
}

// A record type itself, if a type is one.
pub fn record_of(rows: &[u32], ty: u32) -> Option<u32>
    ensures { found_in result ≡ record_at rows.now ty }
{
    let q = row(rows, TYPE, ty);
    if tag(q) == RECORD_TYPE {
        return Some(ty);
    }
    None
}

// Whether a type is a record type.
pub fn is_record(rows: &[u32], ty: u32) -> bool
    ensures { result ≡ of_record rows.now always ty }
{
    let q = row(rows, TYPE, ty);
    tag(q) == RECORD_TYPE
}

// The type that a record type declares for an attribute, if it declares it.
pub fn attribute(rows: &[u32], ty: u32, text: u32) -> Option<u32>
    ensures { found_in result ≡ attribute_at rows.now ty text }
{
    let q = row(rows, TYPE, ty);
    declared(q, text)
}

// Whether a record type declares nothing.
pub fn is_bare(rows: &[u32], ty: u32) -> bool
    ensures { result ≡ bare_at rows.now ty }
{
    let q = row(rows, TYPE, ty);
    q.len() < 4
}

// The type of a kind's attributes.
pub fn attribute_type(rows: &[u32], kind: u32) -> u32
    ensures { result ≡ attribute_type_at rows.now kind }
{
    let q = row(rows, SHAPE, kind);
    item(q, 1)
}

// The type of a kind's tags, a mark where it has none.
pub fn tag_type(rows: &[u32], kind: u32) -> u32
    ensures { result ≡ tag_type_at rows.now kind }
{
    let q = row(rows, SHAPE, kind);
    item(q, 2)
}

// The kinds above a kind.
pub fn kinds_above(rows: &[u32], kind: u32) -> &[u32]
    ensures { result.now ≡ above_at rows.now kind }
{
    match row(rows, SHAPE, kind) {
        [_, _, _, above @ ..] => above,
        _ => &[],
    }
}

// Whether kind `above` is above `kind`.
pub fn is_above(rows: &[u32], kind: u32, above: u32) -> bool
    ensures { result ≡ is_above_at rows.now kind above }
{
    kinds_above(rows, kind).contains(&above)
}

pub fn is_action(rows: &[u32], kind: u32) -> bool
    ensures { result ≡ action_at rows.now kind }
{
    let q = row(rows, KIND, kind);
    item(q, 2) == OF_ACTIONS
}

// Whether a type is an entity or set of entities.
pub fn is_target(rows: &[u32], ty: u32) -> bool
    ensures { result ≡ target_at rows.now ty }
{
    sort(rows, element_of(rows, ty).unwrap_or(ty)) == ENTITY_SORT
}

// The kind or type that a line of the request names.
pub fn request(rows: &[u32], key: usize) -> u32
    ensures { result ≡ request_at rows.now key }
{
    let q = row(rows, key, 0);
    item(q, 1)
}

// ---- what record types declare

// Whether a type is a record type that declares type `own` for an attribute.
pub fn declares(rows: &[u32], ty: u32, text: u32, own: u32) -> bool
    ensures { result ≡ of_record rows.now (declares_as rows.now text own) ty }
{
    let Some(y) = record_of(rows, ty) else {
        return false;
    };
    Some(own) == attribute(rows, y, text)
}

// The same, with a set of types of which it is so; a type that is looked up joins it.
fn declares_once(rows: &[u32], seen: &mut [u32], ty: u32, text: u32, own: u32) -> bool
    requires { Each seen.old (of_record rows.now (declares_as rows.now text own)) }
    ensures { (result ≡ of_record rows.now (declares_as rows.now text own) ty) × Each seen.new (of_record rows.now (declares_as rows.now text own)) }
{
    if has(seen, ty as usize) {
        return true;
    }
    if !declares(rows, ty, text, own) {
        return false;
    }
    add(seen, ty as usize);
    true
}

// The same of each kind of an entity type's row.
pub fn kinds_declare(rows: &[u32], type_row: &[u32], text: u32, own: u32) -> bool
    ensures { result ≡ all_in (of_kind rows.now (declares_as rows.now text own)) (kinds_in type_row.now) }
{
    let mut seen = [0u32; TYPE_WORDS];
    for &kind in kinds(type_row) {
        let y = attribute_type(rows, kind);
        if !declares_once(rows, &mut seen, y, text, own) {
            return false;
        }
    }
    true
}

// Whether the attributes of each kind of an entity type's row have a record type.
pub fn kinds_have(rows: &[u32], type_row: &[u32]) -> bool
    ensures { result ≡ all_in (of_kind rows.now always) (kinds_in type_row.now) }
{
    kinds(type_row)
        .iter()
        .all(|&kind| is_record(rows, attribute_type(rows, kind)))
}
