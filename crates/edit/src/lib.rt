// A line of a sheet, and whether another may stand for it: one that fills unknown items of a request's or an entity's line and changes nothing
// else of it.
#![tactic(auto)]

ghost use Rattle.std.specs.Prelude.{◌≡◌, ◌&&◌, ◌||◌, not, ◌+◌, drop};
ghost use Rattle.print.specs.Written.{Written};
ghost use Rattle.sheet.specs.Ascii.{ascii};
ghost use Rattle.sheet.specs.Bytes.{split, same};
ghost use Rattle.previewed.specs.Preview.{key_in, items_in, may_fill, fills_only, fills};
ghost use Rattle.edit.specs.Places.{begin_of, replaced};

use print::Out;
use scan::{find, front, part_of, place, rest};

// ---- a line for a line

// Whether a line has `=` and a key whose items an answer may fill.
fn may_fill(line: &[u8]) -> bool
    ensures { result ≡ may_fill line.now }
{
    let equals = find(line, 0, b'=');
    if equals >= line.len() {
        return false;
    }
    place(front(line, equals), b"principal,resource,context,entity").is_some()
}

// Whether an item may become another: it stays, or was a lone `?`.
fn may_become(old: &[u8], new: &[u8]) -> bool
    ensures { result ≡ (same old.now new.now || same old.now (ascii "?")) }
{
    old == new || old == b"?".as_slice()
}

// Whether two values have as many items, and each of the old ones may become the new one at its place.
fn items_filled(old: &[u8], new: &[u8]) -> bool
    ensures { result ≡ fills_only (split 44 old.now) (split 44 new.now) }
{
    // kept: both places leap from comma to comma.
    let mut i = 0;
    let mut j = 0;
    loop {
        let e = find(old, i, b',');
        let f = find(new, j, b',');
        if !may_become(part_of(old, i, e), part_of(new, j, f)) {
            return false;
        }
        if e >= old.len() {
            return f >= new.len();
        }
        if f >= new.len() {
            return false;
        }
        i = e + 1;
        j = f + 1;
    }
}

// What stands after byte `at`; nothing where there is no such byte.
fn after(bytes: &[u8], at: usize) -> &[u8]
    ensures { result.now ≡ drop (at + 1) bytes.now }
{
    if at < bytes.len() {
        return rest(bytes, at + 1);
    }
    rest(bytes, at)
}

// Whether another line has the key of the old one and its items, some of them filled.
fn filled(old: &[u8], new: &[u8]) -> bool
    ensures { result ≡ (same (key_in old.now) (key_in new.now) && (fills_only (items_in old.now) (items_in new.now) && not (same old.now new.now))) }
{
    if old == new {
        return false;
    }
    let was = find(old, 0, b'=');
    let is = find(new, 0, b'=');
    if front(old, was) != front(new, is) {
        return false;
    }
    items_filled(after(old, was), after(new, is))
}

// Whether a new line may stand for the old one.
pub fn fills(old: &[u8], new: &[u8]) -> bool
    ensures { result ≡ fills old.now new.now }
{
    if new.contains(&b'\n') {
        return false;
    }
    if !may_fill(old) {
        return false;
    }
    if !may_fill(new) {
        return false;
    }
    filled(old, new)
}

// ---- the line of a sheet

// Where the line of this number begins, counted from 1; the sheet's end where it lacks the line.
// kept: an Option would not tell a line that the sheet lacks from the empty one after its last line end: `begin_of` has one place for both.
pub fn begin(sheet: &[u8], line: usize) -> usize
    ensures { result ≡ begin_of sheet.now line }
{
    if line == 0 {
        return sheet.len();
    }
    let mut at = 0;
    for _ in 1..line {
        let e = find(sheet, at, b'\n');
        if e >= sheet.len() {
            return sheet.len();
        }
        at = e + 1;
    }
    at
}

// The sheet with other bytes in the place of those from `start` to `end`, at the start of a buffer, and how many bytes it has.
pub fn replace(copy: &mut [u8], sheet: &[u8], start: usize, end: usize, new: &[u8]) -> usize
    ensures { Written copy.old 0 (replaced sheet.now start end new.now) copy.new result }
{
    let mut out = Out::new(copy);
    out.bytes(front(sheet, start));
    out.bytes(new);
    out.bytes(rest(sheet, end));
    out.len()
}
