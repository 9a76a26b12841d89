// A row, a text or a name found again among the rows that the words hold.
#![tactic(auto)]

ghost use Rattle.std.specs.Prelude.{◌≡◌, ◌∷◌, ◌-◌, ◌≤◌, length, get_or};
ghost use Rattle.cedar.specs.Numbered.{mem_n};
ghost use Rattle.sheet.specs.Bytes.{same};
ghost use Rattle.sheet.specs.Forms.{TEXT};
ghost use Rattle.sheet.specs.Sheet.{among, firsts};
ghost use Rattle.table.specs.Layout.{row_at, rows_of, text_row, text_rows};
ghost use Rattle.forms.specs.Tags.{TEXT_LINE};
ghost use Rattle.repeats.specs.Ends.{RowEnds, ends_of, TextEnds};

use forms::{TEXT, TEXT_LINE};
use table::{base_of, bytes, count, item, row, tag};
use words::{cut, read};

// So many items at the end of two runs are compared at once, before all are: runs that begin alike often end otherwise.
const TAIL: usize = 8;

// Whether two rows are the same.
fn same_words(left: &[u32], right: &[u32]) -> bool
    ensures { result ≡ same left.now right.now }
{
    if left.len() != right.len() {
        return false;
    }
    if let (Some(end), Some(other)) = (left.last_chunk::<TAIL>(), right.last_chunk::<TAIL>()) {
        if end != other {
            return false;
        }
    }
    left == right
}

// Whether two texts are the same.
fn same_bytes(left: &[u8], right: &[u8]) -> bool
    ensures { result ≡ same left.now right.now }
{
    if left.len() != right.len() {
        return false;
    }
    if let (Some(end), Some(other)) = (left.last_chunk::<TAIL>(), right.last_chunk::<TAIL>()) {
        if end != other {
            return false;
        }
    }
    left == right
}

// Whether the row whose beginning word `i` says, at word `start`, is this one. Most rows end with another word: word `start` of `ends` is the
// last word of a row that begins there and is as long.
fn is_row_at(rows: &[u32], ends: &[u32], x: u32, i: usize, start: usize, line: &[u32]) -> bool
    requires { RowEnds rows.now line.now ends.now x i start }
    ensures { result ≡ same line.now (row_at rows.now i) }
{
    if start < ends.len() {
        if ends[start] != x {
            return false;
        }
    }
    let e = read(rows, i + 1) as usize;
    same_words(line, cut(rows, start, e))
}

// Whether a row is among those of a key.
pub fn is_row(rows: &[u32], key: usize, line: &[u32]) -> bool
    requires { 1 ≤ length line.now }
    ensures { result ≡ among line.now (rows_of rows.now key) }
{
    let n = count(rows, key) as usize;
    let b = base_of(key);
    let starts = cut(rows, b, b + n);
    let last = line.len() - 1;
    let x = line[last];
    let ends = cut(rows, last, rows.len());
    for (i, &start) in starts.iter().enumerate() {
        if is_row_at(rows, ends, x, b + i, start as usize, line) {
            return true;
        }
    }
    false
}

// Whether the words of a row say where these bytes stand.
fn is_text_row(sheet: &[u8], line: &[u32], text: &[u8]) -> bool
    ensures { result ≡ same (TEXT_LINE ∷ text.now) (text_row sheet.now line.now) }
{
    let t = tag(line);
    if t != TEXT_LINE {
        return false;
    }
    let s = item(line, 1) as usize;
    let n = item(line, 2) as usize;
    same_bytes(text, bytes(sheet, s, s + n))
}

// The last byte of a text; 0 where it has none.
fn end_of(text: &[u8]) -> u8
    ensures { result ≡ get_or text.now (length text.now - 1) 0 }
{
    if text.len() == 0 {
        return 0;
    }
    text[text.len() - 1]
}

// The bytes of the sheet that a text of `n` bytes may end with, the one for each beginning; none where `n` is 0.
fn ends_of(sheet: &[u8], n: usize) -> &[u8]
    ensures { result.now ≡ ends_of n sheet.now }
{
    if n == 0 {
        return &sheet[0..0];
    }
    bytes(sheet, n - 1, sheet.len())
}

// Whether the row whose beginning word `i` says, at word `start`, is that of a text. Most texts end with another byte.
fn is_text_at(
    sheet: &[u8],
    rows: &[u32],
    ends: &[u8],
    x: u8,
    i: usize,
    start: usize,
    text: &[u8],
) -> bool
    requires { TextEnds sheet.now rows.now text.now ends.now x i start }
    ensures { result ≡ same (TEXT_LINE ∷ text.now) (text_row sheet.now (row_at rows.now i)) }
{
    let p = read(rows, start + 1) as usize;
    if p < ends.len() {
        if ends[p] != x {
            return false;
        }
    }
    let e = read(rows, i + 1) as usize;
    is_text_row(sheet, cut(rows, start, e), text)
}

// Whether bytes are among the texts.
#[inline(never)]
pub fn is_text(sheet: &[u8], rows: &[u32], text: &[u8]) -> bool
    ensures { result ≡ among (TEXT_LINE ∷ text.now) (text_rows sheet.now (rows_of rows.now TEXT)) }
{
    let n = count(rows, TEXT) as usize;
    let b = base_of(TEXT);
    let starts = cut(rows, b, b + n);
    let ends = ends_of(sheet, text.len());
    let x = end_of(text);
    for (i, &start) in starts.iter().enumerate() {
        if is_text_at(sheet, rows, ends, x, b + i, start as usize, text) {
            return true;
        }
    }
    false
}

// Whether `x` is the first item of a row of a key.
pub fn is_first(rows: &[u32], key: usize, x: u32) -> bool
    ensures { result ≡ mem_n x (firsts (rows_of rows.now key)) }
{
    let n = count(rows, key);
    for i in 0..n {
        if x == item(row(rows, key, i), 1) {
            return true;
        }
    }
    false
}
