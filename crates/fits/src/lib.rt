// Whether a value fits a type, of rows that refer to earlier rows by number and share them. Pairs that were found to fit are
// remembered in lent words, one bit for each of 1,024 values and 128 types, so that no pair is worked out twice.
#![tactic(auto)]

ghost use Rattle.std.specs.Prelude.{◌≡◌, ◌+◌, ◌<◌, length};
ghost use Rattle.fits.specs.Fit.{kinds_in, kind_in, has_in, complete_in, after_in, Within, met, Ahead, Sought, declared_by, found_in, set_fits, record_fits, tags_fit_by, rows_fit, is_bool_row, Leaf, is_pair, marked, with_pair, deep, full, Known, Ran, Answered};

use forms::{
    ENTITY_TYPE, ENTITY_VALUE, LONG_TYPE, LONG_VALUE, RECORD_TYPE, RECORD_VALUE, REQUIRED,
    SET_TYPE, SET_VALUE, STRING_TYPE, TEXT_VALUE, TYPE, VALUE,
};
use table::{item, items, row, tag};
use words::{add, has};

// A tree is never deeper.
const DEPTH: u32 = 64;

// ---- records

// Whether a record has this attribute.
fn there(line: &[u32], text: u32) -> bool
    ensures { result ≡ has_in line.now text }
{
    let mut rest = items(line);
    while let [name, _, others @ ..] = rest {
        if text == *name {
            return true;
        }
        rest = others;
    }
    false
}

// The type that a record type declares for this attribute, if it declares it.
pub fn declared(type_row: &[u32], text: u32) -> Option<u32>
    ensures { found_in result ≡ declared_by type_row.now text }
{
    let mut rest = items(type_row);
    while let [name, _, ty, others @ ..] = rest {
        if text == *name {
            return Some(*ty);
        }
        rest = others;
    }
    None
}

// Where to look for an attribute, from `place` on: at the first one that is not below it.
fn seek(place: &[u32], text: u32) -> &[u32]
    ensures { Sought place.now result.now }
{
    let mut rest = place;
    while let [name, _, _, others @ ..] = rest {
        if *name >= text {
            return rest;
        }
        rest = others;
    }
    place
}

// The type that a record type declares for this attribute; it is looked for at `place` first.
fn declared_at(type_row: &[u32], text: u32, place: &[u32]) -> Option<u32>
    requires { Ahead type_row.now place.now }
    ensures { found_in result ≡ declared_by type_row.now text }
{
    match place {
        [name, _, ty, ..] if text == *name => Some(*ty),
        _ => declared(type_row, text),
    }
}

// Where a record goes on after `place`: behind its attribute there, where that is this one.
fn after(place: &[u32], text: u32) -> &[u32]
    ensures { result.now ≡ after_in place.now text }
{
    match place {
        [name, _, others @ ..] if text == *name => others,
        _ => place,
    }
}

// Whether an attribute is optional or there; it is looked for at `place` first.
fn meets(value_row: &[u32], place: &[u32], text: u32, required: u32) -> bool
    requires { Within value_row.now place.now }
    ensures { result ≡ met value_row.now text required }
{
    if after(place, text).len() < place.len() {
        return true;
    }
    if required == REQUIRED {
        return there(value_row, text);
    }
    true
}

// Whether a record has all attributes that the type requires. Where both ascend, each is found at the place where the last one ended.
pub fn complete(value_row: &[u32], type_row: &[u32]) -> bool
    ensures { result ≡ complete_in value_row.now type_row.now }
{
    let mut rest = items(type_row);
    let mut place = items(value_row);
    while let [text, required, _, others @ ..] = rest {
        if !meets(value_row, place, *text, *required) {
            return false;
        }
        place = after(place, *text);
        rest = others;
    }
    true
}

// ---- the kinds of an entity type

// The kinds of an entity type: a row has one at least.
pub fn kinds(type_row: &[u32]) -> &[u32]
    ensures { result.now ≡ kinds_in type_row.now }
{
    if type_row.len() < 2 {
        return &[0];
    }
    &type_row[1..]
}

// Whether a kind is among those of an entity type.
pub fn has_kind(type_row: &[u32], kind: u32) -> bool
    ensures { result ≡ kind_in type_row.now kind }
{
    kinds(type_row).contains(&kind)
}

// ---- values without parts

// A row of no other form counts as a bool.
fn bool_fits(line: &[u32]) -> bool
    ensures { result ≡ is_bool_row line.now }
{
    let k = tag(line);
    if k < LONG_VALUE {
        return true;
    }
    if k <= RECORD_VALUE {
        return false;
    }
    true
}

fn leaf_fits(value_row: &[u32], type_row: &[u32]) -> bool
    ensures { Leaf value_row.now type_row.now result }
{
    let k = tag(value_row);
    match tag(type_row) {
        LONG_TYPE => k == LONG_VALUE,
        STRING_TYPE => k == TEXT_VALUE,
        ENTITY_TYPE => match k {
            ENTITY_VALUE => has_kind(type_row, item(value_row, 1)),
            _ => false,
        },
        _ => bool_fits(value_row),
    }
}

// ---- pairs found to fit

// Whether the pair has a bit.
fn is_pair(value: u32, ty: u32) -> bool
    ensures { result ≡ is_pair value ty }
{
    if value < 1024 {
        return ty < 128;
    }
    false
}

fn is_marked(work: &[u32], value: u32, ty: u32) -> bool
    ensures { result ≡ marked work.now value ty }
{
    if is_pair(value, ty) {
        return has(work, value as usize * 128 + ty as usize);
    }
    false
}

fn mark(work: &mut [u32], value: u32, ty: u32)
    ensures { work.new ≡ with_pair work.old value ty }
{
    if is_pair(value, ty) {
        add(work, value as usize * 128 + ty as usize);
    }
}

// ---- the recursion

// kept: rows and words side by side, and that what is remembered is true asked by each: `value_fits` and `tags_fit` promise it to any caller
// (docs/DECISIONS.md, `Known`), and a struct of both would have to promise for each call that it keeps the rows and keeps the words lent.

// Whether each element of a set fits a type.
#[cycle(elements_entries_fits_row_fits)]
fn elements(rows: &[u32], work: &mut [u32], line: &[u32], ty: u32, depth: u32) -> bool
    requires { Known rows.now work.old }
    ensures { Ran rows.now work.old work.new (set_fits (deep rows.now depth) line.now ty) (set_fits (full rows.now) line.now ty) result }
{
    for &x in items(line) {
        if !fits(rows, work, x, ty, depth) {
            return false;
        }
    }
    true
}

// Whether each attribute of a record is declared and fits. Where both ascend, each is found in one pass.
#[cycle(elements_entries_fits_row_fits)]
fn entries(rows: &[u32], work: &mut [u32], value_row: &[u32], type_row: &[u32], depth: u32) -> bool
    requires { Known rows.now work.old }
    ensures { Ran rows.now work.old work.new (record_fits (deep rows.now depth) value_row.now type_row.now) (record_fits (full rows.now) value_row.now type_row.now) result }
{
    let mut rest = items(value_row);
    let mut place = items(type_row);
    while let [text, x, others @ ..] = rest {
        place = seek(place, *text);
        let Some(z) = declared_at(type_row, *text, place) else {
            return false;
        };
        if !fits(rows, work, *x, z, depth) {
            return false;
        }
        rest = others;
    }
    true
}

// Whether a value's row fits a type's, with so much depth left for their parts.
#[cycle(elements_entries_fits_row_fits)]
fn row_fits(rows: &[u32], work: &mut [u32], value_row: &[u32], type_row: &[u32], depth: u32) -> bool
    requires { Known rows.now work.old }
    ensures { Ran rows.now work.old work.new (rows_fit (deep rows.now depth) value_row.now type_row.now) (rows_fit (full rows.now) value_row.now type_row.now) result }
{
    let k = tag(value_row);
    match tag(type_row) {
        SET_TYPE => match k {
            SET_VALUE => elements(rows, work, value_row, item(type_row, 1), depth),
            _ => false,
        },
        RECORD_TYPE => match k {
            RECORD_VALUE => {
                if !complete(value_row, type_row) {
                    return false;
                }
                entries(rows, work, value_row, type_row, depth)
            }
            _ => false,
        },
        _ => leaf_fits(value_row, type_row),
    }
}

// Whether a value fits a type, with so much depth left.
#[cycle(elements_entries_fits_row_fits)]
fn fits(rows: &[u32], work: &mut [u32], value: u32, ty: u32, depth: u32) -> bool
    requires { Known rows.now work.old }
    ensures { Ran rows.now work.old work.new (deep rows.now depth value ty) (full rows.now value ty) result }
{
    if depth == 0 {
        return false;
    }
    if is_marked(work, value, ty) {
        return true;
    }
    let r = row(rows, VALUE, value);
    let y = row(rows, TYPE, ty);
    if !row_fits(rows, work, r, y, depth - 1) {
        return false;
    }
    mark(work, value, ty);
    true
}

// ---- the whole depth

// Whether a value fits a type.
pub fn value_fits(rows: &[u32], work: &mut [u32], value: u32, ty: u32) -> bool
    requires { Known rows.now work.old }
    ensures { Answered rows.now work.old work.new (full rows.now value ty) result }
{
    fits(rows, work, value, ty, DEPTH)
}

// Whether each tag of a record fits a type.
pub fn tags_fit(rows: &[u32], work: &mut [u32], line: &[u32], ty: u32) -> bool
    requires { Known rows.now work.old }
    ensures { Answered rows.now work.old work.new (tags_fit_by (full rows.now) line.now ty) result }
{
    let mut rest = items(line);
    while let [_, x, others @ ..] = rest {
        if !value_fits(rows, work, *x, ty) {
            return false;
        }
        rest = others;
    }
    true
}
