// The rows of a sheet in the lent words: every row of every key by its number, in constant time, and a row more at the heap's end.
#![tactic(auto)]

ghost use Rattle.std.specs.Prelude.{◌≡◌, ◌+◌, ◌<◌, get_or, []};
ghost use Rattle.sheet.specs.Forms.{tag, at, items, form_of};
ghost use Rattle.words.specs.Log.{part};
ghost use Rattle.table.specs.Layout.{base, heap, row_at, rows_of, text_at, with_row};

use forms::{LIT, NO_TAG, NODE, SLOT, TEXT, key_for, key_row};
use words::{cut, item_or, put, read};

// The words after the keys' counts: how many policies run, how many values were made, and where the next row begins.
pub const RUN: usize = forms::RUN;

pub const MADE: usize = forms::MADE;

pub const TOP: usize = MADE + 1;

// The words of the row of a policy that runs: tag, id, effect and node, and its link's two values.
pub const RUN_WORDS: u32 = 6;

// Where the first row begins.
pub const HEAP: usize = forms::HEAP;

// Where the depths of types, values and nodes stand in the second slice, the uses of nodes, how many nodes are under a node, and which slots;
// and the word that says how many uses of nodes the policies have.
pub const TYPEDEPTHS: usize = 4096;

pub const VALUEDEPTHS: usize = 4224;

pub const NODEDEPTHS: usize = 5248;

pub const USES: usize = 6272;

pub const SIZES: usize = 7296;

pub const SLOTS: usize = 8320;

pub const SPENT: usize = 9344;

// The word that says where a key's first row begins.
pub fn base_of(key: usize) -> usize
    ensures { (result ≡ base key) × (result < heap) }
{
    key_row(key).base
}

// How many rows a key has.
pub fn count(rows: &[u32], key: usize) -> u32
    ensures { result ≡ get_or rows.now key 0 }
{
    read(rows, key)
}

// The row whose beginning word `i` says.
fn row_at(rows: &[u32], i: usize) -> &[u32]
    requires { i < heap + 4294967296 }
    ensures { result.now ≡ row_at rows.now i }
{
    let start = read(rows, i) as usize;
    let end = read(rows, i + 1) as usize;
    cut(rows, start, end)
}

// Row `number` of a key; none is the empty row.
pub fn row(rows: &[u32], key: usize, number: u32) -> &[u32]
    ensures { result.now ≡ get_or (rows_of rows.now key) number [] }
{
    let most = count(rows, key);
    if number >= most {
        return &rows[0..0];
    }
    let i = base_of(key) + number as usize;
    row_at(rows, i)
}

// A word of a row.
pub fn item(line: &[u32], i: usize) -> u32
    ensures { result ≡ get_or line.now i 0 }
{
    read(line, i)
}

// The items of a row: all words after its tag.
pub fn items(line: &[u32]) -> &[u32]
    ensures { result.now ≡ items line.now }
{
    match line {
        [_, rest @ ..] => rest,
        [] => line,
    }
}

// The number of a row's form.
pub fn tag(line: &[u32]) -> u32
    ensures { result ≡ tag line.now }
{
    item_or(line, 0, NO_TAG)
}

// The key of a form; most are nodes.
pub fn key_of(tag: u32) -> usize
    ensures { result ≡ (form_of tag).key }
{
    match tag {
        LIT..=SLOT => NODE,
        _ => key_for(tag),
    }
}

// The part of the sheet from `start` to `end`, cut at its end.
pub fn bytes(sheet: &[u8], start: usize, end: usize) -> &[u8]
    ensures { result.now ≡ part sheet.now start end }
{
    cut(sheet, start, end)
}

// The bytes of a text, by its row.
pub fn text_of<'a, 'b>(sheet: &'a [u8], line: &'b [u32]) -> &'a [u8]
    ensures { result.now ≡ part sheet.now (at line.now 0) (at line.now 0 + at line.now 1) }
{
    let start = item(line, 1) as usize;
    let len = item(line, 2) as usize;
    cut(sheet, start, start + len)
}

// The bytes of a text, by its number.
pub fn text<'a, 'b>(sheet: &'a [u8], rows: &'b [u32], number: u32) -> &'a [u8]
    ensures { result.now ≡ text_at sheet.now rows.now number }
{
    text_of(sheet, row(rows, TEXT, number))
}

// The words from the heap's end up to `end` become a row of a key.
pub fn add_row(rows: &mut [u32], key: usize, end: u32)
    requires { get_or rows.old key 0 < 4294967295 }
    ensures { rows.new ≡ with_row rows.old key end }
{
    let top = read(rows, TOP);
    let n = read(rows, key);
    let i = base_of(key) + n as usize;
    put(rows, i, top);
    put(rows, i + 1, end);
    put(rows, key, n + 1);
    put(rows, TOP, end);
}
