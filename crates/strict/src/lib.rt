// The strict operations on values by number: what each gives, without making it. Those that look at entities stand in `entity`.
#![tactic(auto)]

pub mod entity;

ghost use Rattle.std.specs.Prelude.{◌≡◌, eqb};
ghost use Rattle.cedar.specs.Numbered.{truly};
ghost use Rattle.sheet.specs.Bytes.{long_at};
ghost use Rattle.table.specs.Layout.{text_at};
ghost use Rattle.long.specs.Ranged.{number_of};
ghost use Rattle.strict.specs.Gives.{out_of, long_out, longs_out, not_out, neg_out, empty_out, is_out, like_out, arith_out, contains_out, all_out, any_out};
ghost use Rattle.lookup.specs.Lookups.{value_in};

use forms::{ADD, LE, LT, SUB};
use like::like;
use table::{items, text};
use value::{Shape, contains, covers, meets, row_of, shape_of};

// What an operation gives: a bool, a long as its number plus 2^63, a value that has a number, an error, or nothing yet.
#[derive(Clone, Copy)]
pub enum Given {
    Bool(bool),
    Long(u64),
    Old(u32),
    Fails,
    Stays,
}

// The other bool.
pub fn not_of(rows: &[u32], value: u32) -> Given
    ensures { out_of result ≡ not_out (value_in rows.now value) }
{
    let s = shape_of(row_of(rows, value as usize));
    let Shape::Bool(b) = s else {
        return Given::Fails;
    };
    Given::Bool(!b)
}

// A long, if it is in range.
fn checked(c: Option<u64>) -> Given
    ensures { out_of result ≡ long_out (number_of c) }
{
    c.map_or(Given::Fails, Given::Long)
}

// The negative.
pub fn neg_of(rows: &[u32], value: u32) -> Given
    ensures { out_of result ≡ neg_out (value_in rows.now value) }
{
    let s = shape_of(row_of(rows, value as usize));
    let Shape::Long(x) = s else {
        return Given::Fails;
    };
    checked(long::neg(x))
}

// Whether a set has no members.
pub fn empty_of(rows: &[u32], value: u32) -> Given
    ensures { out_of result ≡ empty_out (value_in rows.now value) }
{
    let r = row_of(rows, value as usize);
    let s = shape_of(r);
    let Shape::Set = s else {
        return Given::Fails;
    };
    Given::Bool(items(r).len() == 0)
}

// Whether an entity is of this kind.
pub fn is_of(rows: &[u32], value: u32, kind: u32) -> Given
    ensures { out_of result ≡ is_out kind (value_in rows.now value) }
{
    let s = shape_of(row_of(rows, value as usize));
    let Shape::Entity(l, _) = s else {
        return Given::Fails;
    };
    Given::Bool(kind == l)
}

// Whether a text matches a pattern.
pub fn like_of(sheet: &[u8], rows: &[u32], value: u32, pattern: &[u32]) -> Given
    ensures { out_of result ≡ like_out (text_at sheet.now rows.now) pattern.now (value_in rows.now value) }
{
    let s = shape_of(row_of(rows, value as usize));
    let Shape::Text(t) = s else {
        return Given::Fails;
    };
    Given::Bool(like(sheet, rows, pattern, text(sheet, rows, t)))
}

// Whether two values are the same.
pub fn eq_of(left: u32, right: u32) -> Given
    ensures { out_of result ≡ truly (eqb left right) }
{
    Given::Bool(left == right)
}

// Two longs, by the operation's tag: lt, le, add, sub, mul.
fn arith(tag: u32, x: u64, y: u64) -> Given
    ensures { out_of result ≡ longs_out tag (long_at x) (long_at y) }
{
    match tag {
        LT => Given::Bool(long::less(x, y)),
        LE => Given::Bool(long::at_most(x, y)),
        ADD => checked(long::add(x, y)),
        SUB => checked(long::sub(x, y)),
        _ => checked(long::mul(x, y)),
    }
}

// Two longs by number, and the operation's tag.
pub fn arith_of(rows: &[u32], tag: u32, left: u32, right: u32) -> Given
    ensures { out_of result ≡ arith_out tag (value_in rows.now left) (value_in rows.now right) }
{
    let s = shape_of(row_of(rows, left as usize));
    let Shape::Long(x) = s else {
        return Given::Fails;
    };
    let t = shape_of(row_of(rows, right as usize));
    let Shape::Long(y) = t else {
        return Given::Fails;
    };
    arith(tag, x, y)
}

// Whether a set has a member.
pub fn contains_of(rows: &[u32], left: u32, right: u32) -> Given
    ensures { out_of result ≡ contains_out right (value_in rows.now left) }
{
    let r = row_of(rows, left as usize);
    let s = shape_of(r);
    let Shape::Set = s else {
        return Given::Fails;
    };
    Given::Bool(contains(items(r), right))
}

// Whether a set has all members of another.
pub fn all_of(rows: &[u32], left: u32, right: u32) -> Given
    ensures { out_of result ≡ all_out (value_in rows.now left) (value_in rows.now right) }
{
    let r = row_of(rows, left as usize);
    let s = shape_of(r);
    let Shape::Set = s else {
        return Given::Fails;
    };
    let q = row_of(rows, right as usize);
    let t = shape_of(q);
    let Shape::Set = t else {
        return Given::Fails;
    };
    Given::Bool(covers(items(q), items(r)))
}

// Whether a set has some member of another.
pub fn any_of(rows: &[u32], left: u32, right: u32) -> Given
    ensures { out_of result ≡ any_out (value_in rows.now left) (value_in rows.now right) }
{
    let r = row_of(rows, left as usize);
    let s = shape_of(r);
    let Shape::Set = s else {
        return Given::Fails;
    };
    let q = row_of(rows, right as usize);
    let t = shape_of(q);
    let Shape::Set = t else {
        return Given::Fails;
    };
    Given::Bool(meets(items(q), items(r)))
}
