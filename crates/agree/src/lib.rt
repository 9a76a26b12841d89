// Whether a partial and a complete sheet agree, by the rows of both in lent words: the first line of the complete sheet that breaks agreement.
// The partial sheet has the bytes `partial` and the rows `rows`, the complete one the bytes `complete` and the rows `others`.
#![tactic(auto)]

ghost use Rattle.std.specs.Prelude.{◌≡◌, true, false, [], ◌+◌, eqb, get_or, drop};
ghost use Rattle.cedar.specs.Value.{on_some};
ghost use Rattle.sheet.specs.Bytes.{same};
ghost use Rattle.sheet.specs.Forms.{at, ENTITY};
ghost use Rattle.sheet.specs.Typing.{unknown_or};
ghost use Rattle.sheet.specs.Agreement.{request_same, entity_same};
ghost use Rattle.table.specs.Layout.{part, rows_of, text_row, row_in, held};
ghost use Rattle.finished.specs.ByKey.{begin_break, same_break, entity_break, request_break, unlisted_in, lacks, passed_line};
ghost use Rattle.agree.specs.Breaks.{lines_in, counted, alike, Ordered, below, first_for, is_request, break_in, lack_in};

use forms::{CONTEXT, ENTITY, MARK, NO_KEY, PRINCIPAL, SHEET, TEXT, VALUE};
use table::{bytes, count, item, row, tag};

// ---- whole lines

// The bytes of a text, by its row.
fn text_of<'a, 'b>(sheet: &'a [u8], line: &'b [u32]) -> &'a [u8]
    ensures { result.now ≡ part sheet.now (at line.now 0) (at line.now 0 + at line.now 1) }
{
    let start = item(line, 1) as usize;
    let len = item(line, 2) as usize;
    bytes(sheet, start, start + len)
}

// Whether two texts are the same, by their rows.
fn same_text(partial: &[u8], left: &[u32], complete: &[u8], right: &[u32]) -> bool
    ensures { result ≡ same (text_row partial.now left.now) (text_row complete.now right.now) }
{
    if tag(left) != tag(right) {
        return false;
    }
    text_of(partial, left) == text_of(complete, right)
}

// Whether line `number` of a key is the same on both sheets.
fn same_line(
    partial: &[u8],
    rows: &[u32],
    complete: &[u8],
    others: &[u32],
    key: usize,
    number: u32,
) -> bool
    ensures { result ≡ same (row_in partial.now key (get_or (rows_of rows.now key) number [])) (row_in complete.now key (get_or (rows_of others.now key) number [])) }
{
    let left = row(rows, key, number);
    let right = row(others, key, number);
    if key == TEXT {
        return same_text(partial, left, complete, right);
    }
    left == right
}

// How many lines of a key both sheets begin with that are the same.
fn same_lines(partial: &[u8], rows: &[u32], complete: &[u8], others: &[u32], key: usize) -> u32
    ensures { result ≡ alike (lines_in partial.now rows.now key) (lines_in complete.now others.now key) }
{
    let n = count(rows, key);
    let m = count(others, key);
    for i in 0..n {
        if i >= m {
            return i;
        }
        if !same_line(partial, rows, complete, others, key, i) {
            return i;
        }
    }
    n
}

// The first line of a key that breaks agreement, counted from 1, where lines may be added; 0 where none does.
fn begin_break(partial: &[u8], rows: &[u32], complete: &[u8], others: &[u32], key: usize) -> u32
    ensures { result ≡ counted (begin_break (lines_in partial.now rows.now key) (lines_in complete.now others.now key) 0) }
{
    let n = same_lines(partial, rows, complete, others, key);
    if n >= count(rows, key) {
        return 0;
    }
    if n >= count(others, key) {
        return 0;
    }
    n + 1
}

// The same of a key whose lines must be the same.
fn same_break(partial: &[u8], rows: &[u32], complete: &[u8], others: &[u32], key: usize) -> u32
    ensures { result ≡ counted (same_break (lines_in partial.now rows.now key) (lines_in complete.now others.now key) 0) }
{
    let n = same_lines(partial, rows, complete, others, key);
    if n >= count(others, key) {
        return 0;
    }
    n + 1
}

// ---- known parts

// Whether a part of the partial sheet is the same on the complete one, where it is known.
fn part_same(left: u32, right: u32) -> bool
    ensures { result ≡ unknown_or left (eqb left right) }
{
    if left == MARK {
        return true;
    }
    left == right
}

// Whether two lines of the request agree.
fn request_same(left: &[u32], right: &[u32]) -> bool
    ensures { result ≡ request_same left.now right.now }
{
    if item(left, 1) != item(right, 1) {
        return false;
    }
    part_same(item(left, 2), item(right, 2))
}

// The line of a key of the request, if it breaks agreement.
fn request_break(rows: &[u32], others: &[u32], key: usize) -> u32
    ensures { result ≡ counted (request_break (get_or (rows_of rows.now key) 0 []) (get_or (rows_of others.now key) 0 []) 0) }
{
    if request_same(row(rows, key, 0), row(others, key, 0)) {
        return 0;
    }
    1
}

// Whether two lines of one entity agree.
fn entity_same(left: &[u32], right: &[u32]) -> bool
    ensures { result ≡ entity_same left.now right.now }
{
    if !part_same(item(left, 2), item(right, 2)) {
        return false;
    }
    if !part_same(item(left, 3), item(right, 3)) {
        return false;
    }
    part_same(item(left, 4), item(right, 4))
}

// ---- entities: their lines ascend on both sheets, so both are gone through once

// The first entity line from line `from` on whose entity has a number of at least `value`.
fn seek(rows: &[u32], from: u32, value: u32) -> u32
    ensures { result ≡ from + below value (drop from (rows_of rows.now ENTITY)) }
{
    let n = count(rows, ENTITY);
    for i in from..n {
        if item(row(rows, ENTITY, i), 1) >= value {
            return i;
        }
    }
    n.max(from)
}

// Whether entity line `number` is that of entity `value`.
fn is_line_of(rows: &[u32], number: u32, value: u32) -> bool
    ensures { result ≡ on_some false (first_for value (drop number (rows_of rows.now ENTITY))) (λ r. true) }
{
    if number >= count(rows, ENTITY) {
        return false;
    }
    item(row(rows, ENTITY, number), 1) == value
}

// Whether entity line `number` of the partial sheet agrees with a line of the complete one, if both are of one entity.
fn line_agrees(rows: &[u32], number: u32, right: &[u32]) -> bool
    ensures { result ≡ on_some true (first_for (at right.now 0) (drop number (rows_of rows.now ENTITY))) (λ r. entity_same r right.now) }
{
    if !is_line_of(rows, number, item(right, 1)) {
        return true;
    }
    entity_same(row(rows, ENTITY, number), right)
}

// The first entity line that breaks agreement, counted from 1; 0 where none does.
fn entity_break(rows: &[u32], others: &[u32]) -> u32
    requires { Ordered rows.now others.now }
    ensures { result ≡ counted (entity_break (rows_of rows.now ENTITY) (rows_of others.now ENTITY) 0) }
{
    let n = count(others, ENTITY);
    let mut j = 0;
    for i in 0..n {
        let right = row(others, ENTITY, i);
        j = seek(rows, j, item(right, 1));
        if !line_agrees(rows, j, right) {
            return i + 1;
        }
    }
    0
}

// Whether an entity that the partial sheet lists is not listed on the complete one.
fn any_unlisted(rows: &[u32], others: &[u32]) -> bool
    requires { Ordered rows.now others.now }
    ensures { result ≡ unlisted_in (rows_of rows.now ENTITY) (rows_of others.now ENTITY) }
{
    let n = count(rows, ENTITY);
    let mut j = 0;
    for i in 0..n {
        let value = item(row(rows, ENTITY, i), 1);
        j = seek(others, j, value);
        if !is_line_of(others, j, value) {
            return true;
        }
    }
    false
}

// ---- key by key

// Whether a key is one of the request's: principal, action, resource or context.
fn is_request(key: usize) -> bool
    ensures { result ≡ is_request key }
{
    if key < PRINCIPAL {
        return false;
    }
    key <= CONTEXT
}

// The first line of a key that breaks agreement, counted from 1; 0 where none does.
fn key_break(partial: &[u8], rows: &[u32], complete: &[u8], others: &[u32], key: usize) -> u32
    requires { Ordered rows.now others.now }
    ensures { result ≡ counted (break_in partial.now rows.now complete.now others.now key 0) }
{
    if key == TEXT {
        return begin_break(partial, rows, complete, others, key);
    }
    if key == VALUE {
        return begin_break(partial, rows, complete, others, key);
    }
    if key == ENTITY {
        return entity_break(rows, others);
    }
    if is_request(key) {
        return request_break(rows, others, key);
    }
    same_break(partial, rows, complete, others, key)
}

// Whether the complete sheet lacks a line of a key. Those of the request are on every sheet.
fn key_lacks(rows: &[u32], others: &[u32], key: usize) -> bool
    requires { Ordered rows.now others.now }
    ensures { result ≡ lack_in rows.now others.now key }
{
    if key == ENTITY {
        return any_unlisted(rows, others);
    }
    if is_request(key) {
        return false;
    }
    count(others, key) < count(rows, key)
}

// Whether the complete sheet lacks a line.
fn lacks(rows: &[u32], others: &[u32]) -> bool
    requires { Ordered rows.now others.now }
    ensures { result ≡ lacks (held [] rows.now []) (held [] others.now []) }
{
    for key in TEXT..NO_KEY {
        if key_lacks(rows, others, key) {
            return true;
        }
    }
    false
}

// The line that number 11 names: the first of the complete sheet that breaks agreement, the line after its last where none does and one is
// lacking, 0 where the sheets agree.
pub fn breaking_line(partial: &[u8], rows: &[u32], complete: &[u8], others: &[u32]) -> usize
    requires { Ordered rows.now others.now }
    ensures { result ≡ passed_line (held partial.now rows.now []) (held complete.now others.now []) }
{
    let mut before = count(others, SHEET) as usize;
    for key in TEXT..NO_KEY {
        let n = key_break(partial, rows, complete, others, key);
        if n != 0 {
            return before + n as usize;
        }
        before += count(others, key) as usize;
    }
    if lacks(rows, others) {
        return before + 1;
    }
    0
}
