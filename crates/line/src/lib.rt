// One line of a sheet: its row of numbers, written into lent words.
#![tactic(auto)]

ghost use Rattle.std.specs.Prelude.{◌≡◌, cond, [], ◌∷◌, ◌+◌, ◌-◌, ◌*◌, ◌≤◌, ◌<◌, length, take, drop, MatchOption};
ghost use Rattle.std.proofs.Math.Option.{some};
ghost use Rattle.words.specs.Log.{room};
ghost use Rattle.sheet.specs.Bytes.{same, index};
ghost use Rattle.sheet.specs.Forms.{entry, first_node, form_of, no_tag, TYPE, VALUE, NODE, item, joined, mark_or, one, or_empty, tag_of, word_number, row_headed, heading, name_first, name_second, row_of_value};
ghost use Rattle.scan.specs.Numbers.{number_of, known_form};
ghost use Rattle.scan.specs.Places.{items_at, item_end};
ghost use Rattle.forms.specs.Rows.{NUMBER, slot_of};
ghost use Rattle.line.specs.Codes.{mode_of};
ghost use Rattle.line.specs.Written.{Wrote, counted_from, Item, After, Items, Headless, Tagged, HeadRead, Row, Text, Entry, row_room};

use dates::date_of;
use forms::{
    BIT, DASH, DATE, EFFECT, ENTRY, FIELD_LETTER, FORBID, KIND_LETTER, LINE, NUMBER, PART_A,
    PART_C, PART_LETTER, PART_P, PART_R, PERMIT, SLOT_LETTER, STAR, TEXT_LINE, UNKNOWN, form_of,
    key_row, slots_of,
};
use scan::{Cursor, index_of, long_of, node_form, part_of, place, type_form, value_form};
use words::byte;

// The keys that are read in a way of their own.
const TEXT: u64 = forms::TEXT as u64;

const TYPE: u64 = forms::TYPE as u64;

const VALUE: u64 = forms::VALUE as u64;

const NODE: u64 = forms::NODE as u64;

const NO_TAG: usize = forms::NO_TAG as usize;

// What a mark is in a row.
const MARK: u64 = forms::MARK as u64;

// An item that was written: the cursor at the next item, and how many words it has.
#[derive(Clone, Copy)]
struct Placed {
    next: Cursor,
    words: usize,
}

// What a line begins with: its tag, how many of its items, none or one, stand before its constructor, and the cursor at the others.
#[derive(Clone, Copy)]
struct Head {
    tag: usize,
    before: usize,
    items: Cursor,
}

// A mark or an index.
fn mark_or_index(bytes: &[u8], mark: &[u8]) -> Option<u64>
    ensures { number_of result ≡ mark_or (same bytes.now mark.now) (index bytes.now) }
{
    if bytes == mark {
        return Some(MARK);
    }
    index_of(bytes)
}

// The word of the first line.
fn entry_word(partial: bool, bytes: &[u8]) -> Option<u64>
    ensures { one (number_of result) ≡ item (mode_of partial) entry bytes.now }
{
    if partial {
        return place(bytes, b"partial");
    }
    place(bytes, b"complete")
}

// The letter of a variable: principal, action, resource or context.
fn variable(bytes: &[u8]) -> Option<u64>
    ensures { number_of result ≡ word_number bytes.now ("p" ∷ "a" ∷ "r" ∷ "c" ∷ []) }
{
    if bytes.len() != 1 {
        return None;
    }
    match bytes[0] {
        b'p' => Some(PART_P as u64),
        b'a' => Some(PART_A as u64),
        b'r' => Some(PART_R as u64),
        b'c' => Some(PART_C as u64),
        _ => None,
    }
}

// The effect of a policy.
fn effect(bytes: &[u8]) -> Option<u64>
    ensures { number_of result ≡ word_number bytes.now ("permit" ∷ "forbid" ∷ []) }
{
    if bytes == b"permit".as_slice() {
        return Some(PERMIT as u64);
    }
    if bytes == b"forbid".as_slice() {
        return Some(FORBID as u64);
    }
    None
}

// An item of one number, by what may stand at its place.
fn one_number(partial: bool, slot: u8, bytes: &[u8]) -> Option<u64>
    requires { slot ≡ NUMBER → ⊥ }
    ensures { one (number_of result) ≡ item (mode_of partial) (slot_of slot) bytes.now }
{
    if STAR <= slot {
        return mark_or_index(bytes, b"*");
    }
    if DASH <= slot {
        return mark_or_index(bytes, b"-");
    }
    if UNKNOWN <= slot {
        if partial {
            return mark_or_index(bytes, b"?");
        }
        return index_of(bytes);
    }
    if LINE <= slot {
        return index_of(bytes);
    }
    match slot {
        ENTRY => entry_word(partial, bytes),
        KIND_LETTER => place(bytes, b"e,a"),
        FIELD_LETTER => place(bytes, b"o,r"),
        BIT => place(bytes, b"0,1"),
        PART_LETTER => variable(bytes),
        EFFECT => effect(bytes),
        DATE => date_of(bytes),
        SLOT_LETTER => place(bytes, b"p,r"),
        _ => None,
    }
}

// Writes an item from `word` on: how many words it has, none where it is malformed.
fn put_item(bytes: &[u8], partial: bool, slot: u8, rows: &mut [u32], word: usize) -> Option<usize>
    requires { (word + 2 ≤ room) × (room ≤ length rows.old) }
    ensures { Wrote (Item (item (mode_of partial) (slot_of slot) bytes.now) bytes.now rows.old rows.new slot word) result }
{
    if slot == NUMBER {
        let v = long_of(bytes)?;
        rows[word] = (v / 4294967296) as u32;
        rows[word + 1] = (v % 4294967296) as u32;
        return Some(2);
    }
    let x = one_number(partial, slot, bytes)?;
    rows[word] = x as u32;
    Some(1)
}

// Writes the item at the cursor. Most items are indices.
fn put_next(
    bytes: &[u8],
    cursor: Cursor,
    partial: bool,
    slot: u8,
    rows: &mut [u32],
    word: usize,
) -> Option<Placed>
    requires { (cursor.at ≤ length bytes.now) × (length bytes.now ≤ room) × (word + 2 ≤ room) × (room ≤ length rows.old) }
    ensures { MatchOption result (After (mode_of partial) bytes.now rows.old rows.new cursor.at slot word (item_end bytes.now cursor.at + 1) 0) (λ p. After (mode_of partial) bytes.now rows.old rows.new cursor.at slot word p.next.at p.words × (1 ≤ p.words)) }
{
    if LINE <= slot {
        if let Some((n, next)) = cursor.number(bytes) {
            rows[word] = n;
            return Some(Placed { next, words: 1 });
        }
    }
    let start = cursor.at;
    let (end, next) = cursor.item(bytes)?;
    let words = put_item(part_of(bytes, start, end), partial, slot, rows, word)?;
    Some(Placed { next, words })
}

// Writes the items from the cursor on, the first of them at place `j` of a form: where they end, none where one is malformed or they are too
// few or too many. Past the form's items the places of its group come again and again.
fn put_items(
    bytes: &[u8],
    cursor: Cursor,
    partial: bool,
    tag: usize,
    j: usize,
    rows: &mut [u32],
    word: usize,
) -> Option<usize>
    requires { (tag < no_tag) × (j ≤ length (form_of tag).items) × (1 ≤ word) × (cursor.at ≤ length bytes.now + 1) × (length bytes.now ≤ room) × (room ≤ length rows.old) × (2 * word + length bytes.now + 8 ≤ 2 * room + cursor.at) }
    ensures { Wrote (λ r. Items (counted_from (mode_of partial) tag j (items_at bytes.now cursor)) rows.old rows.new tag word r cursor.at (length bytes.now)) result }
{
    let f = form_of(tag as u32);
    let slots = slots_of(f);
    let n = f.items;
    let last = n + f.group;
    let mut cursor = cursor;
    let mut j = j;
    let mut word = word;
    while cursor.at <= bytes.len() {
        if j == last {
            return None;
        }
        let Placed { next, words } = put_next(
            bytes,
            cursor,
            partial,
            byte(slots, j) as u8,
            rows,
            word,
        )?;
        word += words;
        cursor = next;
        j += 1;
        if j == last {
            j = n;
        }
    }
    if j == n {
        return Some(word);
    }
    None
}

// The tag of a key without constructors; none for the others.
fn plain_tag(key: u64) -> Option<usize>
    ensures { result ≡ known_form (tag_of key []) }
{
    let tag = key_row(key as usize).tag as usize;
    if tag < NO_TAG {
        return Some(tag);
    }
    None
}

// The tag of a type or value by its constructor.
fn named_tag(value: bool, name: &[u8]) -> Option<u64>
    ensures { result ≡ known_form (tag_of (cond value VALUE TYPE) name.now) }
{
    if value {
        return value_form(name);
    }
    type_form(name)
}

// Writes the row of a tag: the items from the cursor on, the first at place `j`, where the words before them are written.
fn row_from(
    bytes: &[u8],
    cursor: Cursor,
    partial: bool,
    tag: usize,
    j: usize,
    rows: &mut [u32],
    top: usize,
) -> Option<usize>
    requires { (tag < no_tag) × (j ≤ 1) × (1 ≤ j → first_node ≤ tag) × (j ≤ length (form_of tag).items) × (cursor.at ≤ length bytes.now + 1) × (length bytes.now ≤ room) × (room ≤ length rows.old) × (2 * top + length bytes.now + 16 ≤ 2 * room + cursor.at) }
    ensures { Wrote (λ r. Row (or_empty tag (joined (some (take j (drop (top + 1) rows.old))) (counted_from (mode_of partial) tag j (items_at bytes.now cursor)))) rows.old rows.new top r (length bytes.now + 5 - cursor.at)) result }
{
    rows[top] = tag as u32;
    let end = put_items(bytes, cursor, partial, tag, j, rows, top + 1 + j)?;
    Some(end - top)
}

// The head of a type or value: its constructor stands first.
fn named_head(value: bool, bytes: &[u8], cursor: Cursor) -> Option<Head>
    requires { (cursor.at ≤ length bytes.now) × (length bytes.now ≤ room) }
    ensures { MatchOption result (Headless (cond value VALUE TYPE) (name_first (items_at bytes.now cursor))) (λ h. (h.tag < no_tag) × (h.before ≡ 0) × Tagged (cond value VALUE TYPE) (name_first (items_at bytes.now cursor)) bytes.now cursor.at h.tag h.items) }
{
    let start = cursor.at;
    let (end, items) = cursor.item(bytes)?;
    let tag = named_tag(value, part_of(bytes, start, end))? as usize;
    Some(Head {
        tag,
        before: 0,
        items,
    })
}

// The head of a node: its type stands first, its constructor second.
fn node_head(bytes: &[u8], cursor: Cursor, rows: &mut [u32], top: usize) -> Option<Head>
    requires { (cursor.at ≤ length bytes.now) × (length bytes.now ≤ room) × (room ≤ length rows.old) × (2 * top + length bytes.now + 16 ≤ 2 * room + cursor.at) }
    ensures { HeadRead NODE (name_second (items_at bytes.now cursor)) (length bytes.now - cursor.at) bytes.now cursor.at rows.old rows.new top result }
{
    let (first, typed) = cursor.number(bytes)?;
    let start = typed.at;
    let (end, items) = typed.item(bytes)?;
    let tag = node_form(part_of(bytes, start, end))? as usize;
    rows[top + 1] = first;
    Some(Head {
        tag,
        before: 1,
        items,
    })
}

// The head of a line of a key, which is not a text.
fn head_of(key: u64, bytes: &[u8], cursor: Cursor, rows: &mut [u32], top: usize) -> Option<Head>
    requires { (cursor.at ≤ length bytes.now) × (length bytes.now ≤ room) × (room ≤ length rows.old) × (2 * top + length bytes.now + 16 ≤ 2 * room + cursor.at) }
    ensures { HeadRead key (heading key (items_at bytes.now cursor)) (row_room key (length bytes.now - cursor.at)) bytes.now cursor.at rows.old rows.new top result }
{
    if key == NODE {
        return node_head(bytes, cursor, rows, top);
    }
    if key == TYPE {
        return named_head(false, bytes, cursor);
    }
    if key == VALUE {
        return named_head(true, bytes, cursor);
    }
    let tag = plain_tag(key)?;
    Some(Head {
        tag,
        before: 0,
        items: cursor,
    })
}

// The row of a line of a key, which is not a text.
fn row_value(
    key: u64,
    bytes: &[u8],
    cursor: Cursor,
    partial: bool,
    rows: &mut [u32],
    top: usize,
) -> Option<usize>
    requires { (cursor.at ≤ length bytes.now) × (length bytes.now ≤ room) × (room ≤ length rows.old) × (2 * top + length bytes.now + 16 ≤ 2 * room + cursor.at) }
    ensures { Wrote (λ r. Row (row_headed (mode_of partial) key (heading key (items_at bytes.now cursor))) rows.old rows.new top r (row_room key (length bytes.now - cursor.at))) result }
{
    let Head { tag, before, items } = head_of(key, bytes, cursor, rows, top)?;
    row_from(bytes, items, partial, tag, before, rows, top)
}

// Writes a text as its place and length in the sheet.
fn row_text(start: usize, len: usize, rows: &mut [u32], top: usize) -> Option<usize>
    requires { (start < 65536) × (room ≤ length rows.old) × (top + 3 ≤ room) }
    ensures { Wrote (Text start len rows.old rows.new top) result }
{
    if 128 < len {
        return None;
    }
    let k = top + 1;
    rows[top] = TEXT_LINE;
    rows[k] = start as u32;
    rows[k + 1] = len as u32;
    Some(3)
}

// Writes the row of a line of a key and this value, the part of a sheet after the `=` at the cursor: how many words it has, none where its form is wrong.
pub fn row_entry(
    bytes: &[u8],
    key: u64,
    equals: Cursor,
    partial: bool,
    rows: &mut [u32],
    top: usize,
) -> Option<usize>
    requires { (equals.at < room) × (length bytes.now ≤ room) × (room ≤ length rows.old) × (2 * top + length bytes.now + 16 ≤ 2 * room) }
    ensures { Wrote (Entry bytes.now (equals.at + 1) (row_of_value (mode_of partial) key bytes.now) rows.old rows.new top) result }
{
    let at = equals.at;
    if key == TEXT {
        return row_text(at + 1, bytes.len(), rows, top);
    }
    row_value(key, bytes, equals.items(), partial, rows, top)
}
