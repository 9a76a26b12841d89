// The rows seen: a number for each, and the set of the numbers.
#![tactic(auto)]

ghost use Rattle.std.specs.Prelude.{◌≡◌, not, ◌%◌, drop};
ghost use Rattle.words.specs.Bits.{member, added};
ghost use Rattle.sheet.specs.Forms.{tag, key_of};
ghost use Rattle.table.specs.Layout.{row_in};
ghost use Rattle.seen.specs.Seen.{PLACES, mixed, mixed_on, unseen, with_seen};

use forms::{TEXT, TYPE, VALUE};
use table::{bytes, item, tag};
use words::{add, has};

// The words of the set that has the numbers of the rows seen, and how many numbers there are.
pub const PLACE_WORDS: usize = 512;

const PLACES: usize = 32 * PLACE_WORDS;

// The number of the words so far, with one word more.
fn mixed(sum: u32, x: u32) -> u32
    ensures { result ≡ mixed sum x }
{
    ((sum as u64 * 33 + x as u64) % 0x1_0000_0000) as u32
}

// The number of a row's words.
fn mixed_words(line: &[u32]) -> u32
    ensures { result ≡ mixed_on (tag line.now) (drop 1 line.now) }
{
    let mut sum = tag(line);
    for i in 1..line.len() {
        sum = mixed(sum, line[i]);
    }
    sum
}

// The number of a tag and a text's bytes.
fn mixed_bytes(tag: u32, text: &[u8]) -> u32
    ensures { result ≡ mixed_on tag text.now }
{
    let mut sum = tag;
    for &byte in text {
        sum = mixed(sum, byte as u32);
    }
    sum
}

// A number joins those seen. Returns whether it was not among them.
fn see(seen: &mut [u32], sum: u32) -> bool
    ensures new { result ≡ not (member seen.old (sum % PLACES)) }
    ensures with { seen.new ≡ added seen.old (sum % PLACES) }
{
    let place = sum as usize % PLACES;
    if has(seen, place) {
        return false;
    }
    add(seen, place);
    true
}

// A row of a key joins those seen, if those of its key must differ. Returns whether no row of its number was seen, so that it is new.
pub fn see_line(sheet: &[u8], key: usize, line: &[u32], seen: &mut [u32]) -> bool
    requires { key ≡ key_of line.now }
    ensures new { result ≡ unseen seen.old (row_in sheet.now (key_of line.now) line.now) }
    ensures with { seen.new ≡ with_seen seen.old (row_in sheet.now (key_of line.now) line.now) }
{
    if key == TEXT {
        let s = item(line, 1) as usize;
        let n = item(line, 2) as usize;
        return see(seen, mixed_bytes(tag(line), bytes(sheet, s, s + n)));
    }
    if key == TYPE {
        return see(seen, mixed_words(line));
    }
    if key == VALUE {
        return see(seen, mixed_words(line));
    }
    false
}
