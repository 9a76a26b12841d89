// Sets of types and kinds as bits in words, and sets remembered at places, one for each text and each type.
#![tactic(auto)]

ghost use Rattle.std.specs.Prelude.{◌≡◌, true, ◌+◌, ◌*◌, ◌≤◌, ◌<◌, length};
ghost use Rattle.typesets.specs.Sets.{TYPES, TYPE_WORDS, SLOTS, PLACES, Next, Gathered, AllSeen, Settled, of_word, of_sets};

use words::{cut, join, put, read, store};

// A sheet has no more types.
pub const TYPES: usize = 128;

// The words of a set of kinds, of which a sheet has at most 32, and of a set of types.
pub const KIND_WORDS: usize = 1;

pub const TYPE_WORDS: usize = 4;

// The texts whose steps are remembered; a place for each of them and each type.
pub const SLOTS: usize = 8;

pub const PLACES: usize = SLOTS * TYPES;

// ---- the members of a set

// The first member from `number` on, or the number of types.
pub fn next(set: &[u32], number: usize) -> usize
    requires { (number ≤ TYPES) × (length set.now ≡ TYPE_WORDS) }
    ensures { Next set.now number result × (result ≤ TYPES) }
{
    let own = number / 32;
    let left = read(set, own) >> (number % 32);
    if left != 0 {
        return number + left.trailing_zeros() as usize;
    }
    for w in own + 1..TYPE_WORDS {
        let x = read(set, w);
        if x != 0 {
            return w * 32 + x.trailing_zeros() as usize;
        }
    }
    TYPES
}

// ---- places that are all seen

// Whether those of all record types of a set are seen.
pub fn are_seen(seen: &[u32], records: &[u32], slot: usize) -> bool
    requires { (length seen.now ≡ SLOTS * TYPE_WORDS) × (length records.now ≡ TYPE_WORDS) × (slot < SLOTS) }
    ensures { AllSeen seen.now records.now slot result }
{
    for w in 0..TYPE_WORDS {
        let x = read(seen, slot * TYPE_WORDS + w);
        if x | read(records, w) != x {
            return false;
        }
    }
    true
}

// The sets join that the bits of a word number, from `first` on.
fn join_word(images: &[u32], reached: &mut [u32], word: u32, first: usize)
    requires { (length images.now ≡ PLACES * TYPE_WORDS) × (length reached.old ≡ TYPE_WORDS) × (first + 32 ≤ PLACES) }
    ensures { Gathered reached.old reached.new (of_word images.now first word) true }
{
    let mut own = [0u32; TYPE_WORDS];
    let mut x = word;
    while x != 0 {
        let k = u32::trailing_zeros(x);
        let y = first + k as usize;
        join(
            &mut own,
            cut(images, y * TYPE_WORDS, y * TYPE_WORDS + TYPE_WORDS),
        );
        x -= 1 << k;
    }
    join(reached, &own);
}

// Those of all record types of a set join.
pub fn join_places(images: &[u32], reached: &mut [u32], records: &[u32], slot: usize)
    requires { (length images.now ≡ PLACES * TYPE_WORDS) × (length reached.old ≡ TYPE_WORDS) × (length records.now ≡ TYPE_WORDS) × (slot < SLOTS) }
    ensures { Gathered reached.old reached.new (of_sets images.now slot records.now 0) true }
{
    for w in 0..TYPE_WORDS {
        join_word(images, reached, read(records, w), slot * TYPES + w * 32);
    }
}

// ---- the slot of a text

// The slot of a text, either of two: the first one, where it has this text or nothing is seen there. Any slot would serve.
fn slot_of(texts: &[u32], seen: &[u32], text: u32) -> usize
    ensures { result < SLOTS }
{
    let first = text as usize % SLOTS;
    if read(texts, first) == text {
        return first;
    }
    let w = first * TYPE_WORDS;
    if read(seen, w) | read(seen, w + 1) | read(seen, w + 2) | read(seen, w + 3) == 0 {
        return first;
    }
    text as usize / SLOTS % SLOTS
}

// The text of a slot, a later one in the place of an earlier one: its slot.
pub fn settle(texts: &mut [u32], seen: &mut [u32], text: u32) -> usize
    requires { (length texts.old ≡ SLOTS) × (length seen.old ≡ SLOTS * TYPE_WORDS) }
    ensures { Settled texts.old seen.old texts.new seen.new text result × (result < SLOTS) }
{
    let slot = slot_of(texts, seen, text);
    if read(texts, slot) == text {
        return slot;
    }
    store(seen, slot * TYPE_WORDS, &[0u32; TYPE_WORDS]);
    put(texts, slot, text);
    slot
}
