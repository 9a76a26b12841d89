// A lent slice of words. Every call but `zero` is total: a word is 0 past the end, a part is cut there, and nothing is stored there.
// A log is the list of the slice's first `top` words: it is read with 0 past its end, grows at its end while it has room, and is
// cut by going back to a smaller `top`. A set of numbers takes one bit for each. A table of small numbers has
// several to a word.
#![tactic(auto)]

ghost use Rattle.std.specs.Prelude.{◌≡◌, [], ◌∷◌, ◌%◌, ◌^◌, ◌≤◌, length, get_or, take, set};
ghost use Rattle.std.proofs.lemmas.List.Edits.{sets};
ghost use Rattle.words.specs.Log.{part, has_room, Appended, zeros, cleared};
ghost use Rattle.words.specs.Bits.{member, added, joined, digit_of, byte_of};

// The words of a slice that a log may take.
pub const ROOM: usize = 16384;

// An item of a slice, or `other` past its end.
pub fn item_or<T: Copy>(items: &[T], i: usize, other: T) -> T
    ensures { result ≡ get_or items.now i other }
{
    items.get(i).copied().unwrap_or(other)
}

// A word of the slice.
pub fn read(words: &[u32], i: usize) -> u32
    ensures { result ≡ get_or words.now i 0 }
{
    item_or(words, i, 0)
}

// A word of the log.
pub fn word(words: &[u32], top: usize, i: usize) -> u32
    ensures { result ≡ get_or (take top words.now) i 0 }
{
    if i < top {
        return read(words, i);
    }
    0
}

// The part from `start` to `end`, cut at the end.
pub fn cut<T>(items: &[T], start: usize, end: usize) -> &[T]
    ensures { result.now ≡ part items.now start end }
{
    let end = end.min(items.len());
    &items[start.min(end)..end]
}

// Another item in the place of one.
pub fn put<T: Copy>(items: &mut [T], i: usize, item: T)
    ensures { items.new ≡ set items.old i item }
{
    if i < items.len() {
        items[i] = item;
    }
}

// A run of stores from `at` on.
pub fn store<T: Copy>(items: &mut [T], at: usize, row: &[T])
    ensures { items.new ≡ sets items.old at row.now }
{
    // kept: one item after the other: as a run, by `copy_from_slice`, this calls memmove, and the archive for C would need it from outside.
    let mut k = at;
    for &item in row {
        if k >= items.len() {
            return;
        }
        items[k] = item;
        k += 1;
    }
}

// Whether a slice of `len` words has room for `n` more after the log's end.
fn has_room(len: usize, top: usize, n: usize) -> bool
    ensures { result ≡ has_room len top n }
{
    top.saturating_add(n) <= len.min(ROOM)
}

// One word at the log's end, and the end after it.
pub fn push(words: &mut [u32], top: usize, word: u32) -> usize
    ensures { Appended words.old top (word ∷ []) words.new result }
{
    if has_room(words.len(), top, 1) {
        words[top] = word;
        return top + 1;
    }
    top
}

// A run of words at the log's end, all or none of it, and the end after it.
pub fn append(words: &mut [u32], top: usize, row: &[u32]) -> usize
    ensures { Appended words.old top row.now words.new result }
{
    if has_room(words.len(), top, row.len()) {
        store(words, top, row);
        return top + row.len();
    }
    top
}

// The words before `end` become 0.
pub fn zero(words: &mut [u32], end: usize)
    requires { end ≤ length words.old }
    ensures { words.new ≡ zeros end words.old }
{
    words[..end].fill(0);
}

// The first 16,384 words become 0, the rest stays; a shorter slice stays whole.
pub fn clear(words: &mut [u32])
    ensures { words.new ≡ cleared words.old }
{
    if words.len() < ROOM {
        return;
    }
    zero(words, ROOM);
}

// The word that has the bit of `number` alone.
fn power(number: usize) -> u32
    ensures { result ≡ 2 ^ (number % 32) }
{
    1 << (number % 32)
}

// Whether `number` is in the set.
pub fn has(words: &[u32], number: usize) -> bool
    ensures { result ≡ member words.now number }
{
    let x = read(words, number / 32);
    x / power(number) % 2 == 1
}

// `number` joins the set, if the slice has a word for it.
pub fn add(words: &mut [u32], number: usize)
    ensures { words.new ≡ added words.old number }
{
    if has(words, number) {
        return;
    }
    let i = number / 32;
    if i < words.len() {
        let x = words[i];
        let q = power(number);
        words[i] = x + q;
    }
}

// The members of another set join the set, as far as the slice has words for them.
pub fn join(words: &mut [u32], other: &[u32])
    ensures { words.new ≡ joined words.old other.now }
{
    for i in 0..words.len().min(other.len()) {
        words[i] |= other[i];
    }
}

// Digit `i`, modulo 16, of a word of sixteen hexadecimal digits, the lowest first.
pub fn digit(word: u64, i: usize) -> usize
    ensures { result ≡ digit_of word i }
{
    (word as usize >> (i % 16 * 4)) % 16
}

// Byte `i`, modulo 4, of a word of four, the lowest first.
pub fn byte(word: u32, i: usize) -> usize
    ensures { result ≡ byte_of word i }
{
    (word as usize >> (i % 4 * 8)) % 256
}
