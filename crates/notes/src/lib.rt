// What a long path notes: chains of entity lines in `chains`, and where the entries of a record stand, over which leaps go in `entries`.
#![tactic(auto)]

pub mod chains;
pub mod entries;

ghost use Rattle.std.specs.Prelude.{◌≡◌};
ghost use Rattle.lookup.specs.Lookups.{ATTRIBUTES, part_of, part_in};
ghost use Rattle.notes.specs.Noted.{Spans, Noted, Placed, Looked};

use crate::chains::Chains;
use crate::entries::{entry_rising, rises};
use forms::VALUE;
use lookup::{ATTRIBUTES, Look, Part, look_at, part_at};
use table::{base_of, count};
use value::{Shape, row_of, shape_of};
use words::{cut, item_or, put, read};

// Where the entries of a record stand in the words: from `start` up to `end`, which is 0 where it is not known or their texts do not ascend.
// kept: an Option would take half as many words again, and each long path clears a thousand of them.
#[derive(Clone, Copy)]
pub struct Span {
    pub start: u32,
    pub end: u32,
}

// Where no entries are known to stand.
pub const NOWHERE: Span = Span { start: 0, end: 0 };

// The attributes of an entity, by chains of lines.
fn attributes(chains: &Chains, complete: bool, kind: u32, text: u32) -> Part
    ensures { part_of result ≡ part_in complete chains.now.rows.now kind text ATTRIBUTES }
{
    part_at(chains.rows, complete, chains.find(kind, text), ATTRIBUTES)
}

// Where the entries of record `value` of the sheet stand.
fn span_of(rows: &[u32], value: u32) -> Span
    ensures { Spans rows.now value result }
{
    if value >= count(rows, VALUE) {
        return NOWHERE;
    }
    let b = base_of(VALUE) + value as usize;
    let start = read(rows, b);
    let end = read(rows, b + 1);
    if start >= end {
        return NOWHERE;
    }
    let s = shape_of(cut(rows, start as usize, end as usize));
    let Shape::Record = s else {
        return NOWHERE;
    };
    let start = start + 1;
    if !rises(cut(rows, start as usize, end as usize)) {
        return NOWHERE;
    }
    Span { start, end }
}

// Notes that the attributes of `value` are the entries of record `source`.
fn note(rows: &[u32], value: u32, source: u32, spans: &mut [Span])
    ensures { Placed rows.now value source spans.old spans.new }
{
    put(spans, value as usize, span_of(rows, source));
}

// `text` among the attributes of a record or an entity, which are noted.
fn look_new(chains: &Chains, complete: bool, value: u32, text: u32, spans: &mut [Span]) -> Look
    requires { Noted complete chains.now.rows.now spans.old }
    ensures { Looked complete chains.now.rows.now value text spans.new result }
{
    let s = shape_of(row_of(chains.rows, value as usize));
    let Shape::Entity(k, t) = s else {
        note(chains.rows, value, value, spans);
        return look_at(chains.rows, value, text);
    };
    match attributes(chains, complete, k, t) {
        Part::Unknown => Look::Unknown(k),
        Part::Empty => Look::Missing,
        Part::Known(n) => {
            note(chains.rows, value, n, spans);
            look_at(chains.rows, n, text)
        }
    }
}

// The same, by what was noted.
pub fn look_noted(
    chains: &Chains,
    complete: bool,
    value: u32,
    text: u32,
    spans: &mut [Span],
) -> Look
    requires { Noted complete chains.now.rows.now spans.old }
    ensures { Looked complete chains.now.rows.now value text spans.new result }
{
    let span = item_or(spans, value as usize, NOWHERE);
    if span.end == 0 {
        return look_new(chains, complete, value, text, spans);
    }
    let entries = cut(chains.rows, span.start as usize, span.end as usize);
    let Some(x) = entry_rising(entries, text) else {
        return Look::Missing;
    };
    Look::At(x)
}
