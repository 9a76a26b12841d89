// A value found among those that there are, or made: its row then stands at the heap's end. Where there is no room, or 1,024 values
// were made, nothing is stored.
ghost use Rattle.std.specs.Prelude.{◌≡◌, true, ◌&&◌, [], ◌∷◌, ◌+◌, ◌-◌, ◌≤◌, ◌<◌, eqb, leb, ltb, get_or, length, take, drop};
ghost use Rattle.std.proofs.Math.Option.{none};
ghost use Rattle.words.specs.Log.{part, Room, Holds};
ghost use Rattle.cedar.specs.Making.{sort_n};
ghost use Rattle.forms.specs.Tags.{BOOL_VALUE};
ghost use Rattle.sheet.specs.Bytes.{same};
ghost use Rattle.sheet.specs.Forms.{NODE, VALUE};
ghost use Rattle.table.specs.Layout.{MADE, base, row_at, rows_of};
ghost use Rattle.value.specs.Lines.{value_lines, place_of, Past};
ghost use Rattle.value.specs.Clear.{Clear, clear_at};
ghost use Rattle.value.specs.Places.{passed, Passing};
ghost use Rattle.value.specs.Shapes.{value_found};
ghost use Rattle.value.specs.Made.{bool_row, long_row, entity_row, room_for, narrow, with_made, Made, MadeBeside, values_in, Shifted, Inserted, lower_of, least_of, set_row, pairs_of, record_row, push_all};

use forms::{BOOL_VALUE, ENTITY_VALUE, LONG_VALUE, NODE, RECORD_VALUE, SET_VALUE, VALUE};
use table::{HEAP, MADE, TOP, add_row, base_of, count, row};
use words::{cut, push, read, store};

// The words of a residual's row, of which one is a value's number.
const ROW: usize = 4;

const SOURCE: usize = 1;

// How many places a search passes in one turn.
const FOUR: usize = 4;

// Whether `value` stands at `at`, before `end`.
fn is_there(log: &[u32], at: usize, end: usize, value: u32) -> bool
    ensures { result ≡ (ltb at end && eqb (get_or log.now at 0) value) }
{
    if at >= end {
        return false;
    }
    read(log, at) == value
}

// Places where rows begin, and two words that tell a row from most others: `value` stands in the words at its place, `former` in those before.
#[derive(Clone, Copy)]
struct TwoWords<'a> {
    words: &'a [u32],
    before: &'a [u32],
    places: &'a [u32],
    value: u32,
    former: u32,
}

impl<'a> TwoWords<'a> {
    // Whether `value` stands at the place.
    fn is_word(&self, place: u32) -> bool
        ensures { result ≡ (ltb place (length self.now.words.now) && eqb (get_or self.now.words.now place 0) self.now.value) }
    {
        is_there(self.words, place as usize, self.words.len(), self.value)
    }

    // Whether both words stand at the place.
    fn is_at(&self, place: u32) -> bool
        ensures { result ≡ ((ltb place (length self.now.words.now) && eqb (get_or self.now.words.now place 0) self.now.value) && eqb (get_or self.now.before.now place 0) self.now.former) }
    {
        if !self.is_word(place) {
            return false;
        }
        read(self.before, place as usize) == self.former
    }

    // Whether they stand at none of the four places from number `i` on.
    fn is_at_none(&self, i: usize) -> bool
        requires { i + 4 ≤ length self.now.places.now }
        ensures { result ≡ leb 4 (passed self.now.words.now self.now.before.now self.now.value self.now.former (drop i self.now.places.now)) }
    {
        let places = self.places;
        if self.is_at(places[i]) {
            return false;
        }
        if self.is_at(places[i + 1]) {
            return false;
        }
        if self.is_at(places[i + 2]) {
            return false;
        }
        !self.is_at(places[i + 3])
    }

    // The same, but most rows have another word there: both words are compared only where `value` stands at one of the four.
    fn passes_four(&self, i: usize) -> bool
        requires { i + 4 ≤ length self.now.places.now }
        ensures { result ≡ leb 4 (passed self.now.words.now self.now.before.now self.now.value self.now.former (drop i self.now.places.now)) }
    {
        let places = self.places;
        if self.is_word(places[i]) {
            return self.is_at_none(i);
        }
        if self.is_word(places[i + 1]) {
            return self.is_at_none(i);
        }
        if self.is_word(places[i + 2]) {
            return self.is_at_none(i);
        }
        if self.is_word(places[i + 3]) {
            return self.is_at_none(i);
        }
        true
    }

    // A number up to which they stand at none of the places from number `from` on: these are passed four at a time.
    fn passed_by_fours(&self, from: usize) -> usize
        requires { from ≤ length self.now.places.now }
        ensures { Passing self.now.words.now self.now.before.now self.now.value self.now.former self.now.places.now from result }
    {
        let mut i = from;
        while self.places.len() - i >= FOUR {
            if !self.passes_four(i) {
                return i;
            }
            i += FOUR;
        }
        i
    }

    // The number of the first place from number `from` on where they stand, or of all places where they stand at none.
    fn next_place(&self, from: usize) -> usize
        requires { from ≤ length self.now.places.now }
        ensures { result ≡ from + passed self.now.words.now self.now.before.now self.now.value self.now.former (drop from self.now.places.now) }
    {
        let places = self.places;
        for i in self.passed_by_fours(from)..places.len() {
            if self.is_at(places[i]) {
                return i;
            }
        }
        places.len()
    }
}

// Which word tells a row from most others: the last one, but of a bool the first.
fn telling(line: &[u32]) -> usize
    requires { 1 ≤ length line.now }
    ensures { result < length line.now }
{
    if line[0] == BOOL_VALUE {
        return 0;
    }
    line.len() - 1
}

// Which word is compared where word `j` fits: the one before it, or the first one again.
fn one_before(j: usize) -> usize
    ensures { result ≤ j }
{
    if j < 1 {
        return j;
    }
    j - 1
}

// Whether the row whose beginning word `at` says has these words.
fn is_row(rows: &[u32], at: usize, line: &[u32]) -> bool
    requires { at < length rows.now }
    ensures { result ≡ same (row_at rows.now at) line.now }
{
    let start = read(rows, at) as usize;
    let end = read(rows, at + 1) as usize;
    cut(rows, start, end) == line
}

// A row looked for among the rows of a key, of which those before number `from` are others.
#[derive(Clone, Copy)]
struct Search<'a> {
    rows: &'a [u32],
    key: usize,
    from: usize,
    line: &'a [u32],
    ghost near: { from ≤ length (rows_of rows.now key) },
    ghost past: { place_of line.now (rows_of rows.now key) ≡ from + place_of line.now (drop from (rows_of rows.now key)) },
}

impl<'a> Search<'a> {
    // The number of the first row with these words, or of all rows where none has them, row by row.
    fn by_rows(&self) -> usize
        ensures { result ≡ place_of self.now.line.now (rows_of self.now.rows.now self.now.key) }
    {
        let n = count(self.rows, self.key);
        for i in 0..n {
            if row(self.rows, self.key, i) == self.line {
                return i as usize;
            }
        }
        n as usize
    }

    // The same by two words: only those of the `many` rows are compared that have them in their places. Word `first` says where the first row begins.
    fn by_words(&self, first: usize, many: usize) -> usize
        requires { (first ≡ base self.now.key) × (many ≡ get_or self.now.rows.now self.now.key 0) × (first + many ≤ length self.now.rows.now) × (1 ≤ length self.now.line.now) × (length self.now.line.now ≤ length self.now.rows.now) }
        ensures { result ≡ place_of self.now.line.now (rows_of self.now.rows.now self.now.key) }
    {
        let rows = self.rows;
        let line = self.line;
        let end = first + many;
        let starts = &rows[first..end];
        let j = telling(line);
        let k = one_before(j);
        let to = rows.len() - j + k;
        let two = TwoWords {
            words: &rows[j..rows.len()],
            before: &rows[k..to],
            places: starts,
            value: line[j],
            former: line[k],
        };
        let mut i = self.from;
        loop {
            i = two.next_place(i);
            if i >= many {
                return many;
            }
            if is_row(rows, first + i, line) {
                return i;
            }
            i += 1;
        }
    }

    // The number of the first row with these words, or of all rows where none has them.
    fn find(&self) -> usize
        ensures { result ≡ place_of self.now.line.now (rows_of self.now.rows.now self.now.key) }
    {
        let n = count(self.rows, self.key) as usize;
        let b = base_of(self.key);
        if b + n > self.rows.len() {
            return self.by_rows();
        }
        if self.line.len() < 1 {
            return self.by_rows();
        }
        if self.line.len() > self.rows.len() {
            return self.by_rows();
        }
        self.by_words(b, n)
    }

    // The same, where all rows of the key may be others.
    fn find_given(&self) -> usize
        ensures { result ≡ place_of self.now.line.now (rows_of self.now.rows.now self.now.key) }
    {
        let n = count(self.rows, self.key) as usize;
        if self.from >= n {
            return n;
        }
        self.find()
    }
}

// The number of the first value with these words, or of all values where none has them.
fn find(rows: &[u32], line: &[u32]) -> usize
    ensures { result ≡ place_of line.now (value_lines rows.now) }
{
    let n = count(rows, VALUE) as usize;
    let given = Search {
        rows,
        key: VALUE,
        from: 0,
        line,
    };
    let v = given.find();
    if v < n {
        return v;
    }
    let made = Search {
        rows,
        key: MADE,
        from: 0,
        line,
    };
    n + made.find()
}

// Whether the row whose beginning word `at` says is the bool with this second word.
fn is_bool(rows: &[u32], at: usize, bit: u32) -> bool
    requires { at < length rows.now }
    ensures { result ≡ same (row_at rows.now at) (BOOL_VALUE ∷ bit ∷ []) }
{
    let start = read(rows, at) as usize;
    if read(rows, start) != BOOL_VALUE {
        return false;
    }
    if read(rows, start + 1) != bit {
        return false;
    }
    is_row(rows, at, &[BOOL_VALUE, bit])
}

// The number of the first of the `many` made values that is the bool, or of all of them where none is. Word `first` says where the first row begins.
fn made_bool(rows: &[u32], first: usize, many: usize, bit: u32) -> usize
    requires { (first ≡ base MADE) × (many ≡ get_or rows.now MADE 0) × (first + many ≤ length rows.now) }
    ensures { result ≡ place_of (BOOL_VALUE ∷ bit ∷ []) (rows_of rows.now MADE) }
{
    for i in 0..many {
        if is_bool(rows, first + i, bit) {
            return i;
        }
    }
    many
}

// The number of the first of the made values that is the bool, or of all of them where none is.
fn find_made_bool(rows: &[u32], bit: u32) -> usize
    ensures { result ≡ place_of (BOOL_VALUE ∷ bit ∷ []) (rows_of rows.now MADE) }
{
    let n = count(rows, MADE) as usize;
    let b = base_of(MADE);
    if b + n > rows.len() {
        let search = Search {
            rows,
            key: MADE,
            from: 0,
            line: &[BOOL_VALUE, bit],
        };
        return search.by_rows();
    }
    made_bool(rows, b, n, bit)
}

// The number of the first value that is the bool, or of all values where none is. The sheet's first `skip` values are others.
fn find_bool(rows: &[u32], skip: usize, bit: u32) -> usize
    requires { Past (BOOL_VALUE ∷ bit ∷ []) (rows_of rows.now VALUE) skip }
    ensures { result ≡ place_of (BOOL_VALUE ∷ bit ∷ []) (value_lines rows.now) }
{
    let n = count(rows, VALUE) as usize;
    let given = Search {
        rows,
        key: VALUE,
        from: skip,
        line: &[BOOL_VALUE, bit],
    };
    let v = given.find_given();
    if v < n {
        return v;
    }
    n + find_made_bool(rows, bit)
}

// Whether a row of `size` words more may be made.
fn has_room(rows: &[u32], size: usize) -> bool
    ensures { result ≡ room_for rows.now size }
{
    if read(rows, MADE) >= 1024 {
        return false;
    }
    let top = read(rows, TOP) as usize;
    if top < HEAP {
        return false;
    }
    if size > 16384 {
        return false;
    }
    top + size <= 16384
}

// A number as a word.
fn narrowed(value: usize) -> u32
    ensures { result ≡ narrow value }
{
    if value < 4294967296 {
        return value as u32;
    }
    0
}

// The words become a row of the made ones.
fn add(rows: &mut [u32], line: &[u32])
    requires { room_for rows.old (length line.now) ≡ true }
    ensures { rows.new ≡ with_made rows.old line.now }
{
    let top = read(rows, TOP);
    store(rows, top as usize, line);
    add_row(rows, MADE, top + line.len() as u32);
}

// The number `v` of the value with these words, which is made where it is absent.
fn make_at(rows: &mut [u32], v: usize, line: &[u32]) -> u32
    requires { v ≡ place_of line.now (value_lines rows.old) }
    ensures { Made rows.old line.now rows.new result }
{
    if v < crate::total(rows) {
        return narrowed(v);
    }
    if !has_room(rows, line.len()) {
        return narrowed(v);
    }
    add(rows, line);
    narrowed(v)
}

// The number of the value with these words, made where it is absent.
pub fn make(rows: &mut [u32], line: &[u32]) -> u32
    ensures { Made rows.old line.now rows.new result }
{
    let v = find(rows, line);
    make_at(rows, v, line)
}

// Whether the row whose beginning word `at` says begins in the heap, and not as a bool.
fn is_clear(rows: &[u32], at: usize) -> bool
    ensures { result ≡ clear_at rows.now at }
{
    let start = read(rows, at);
    if (start as usize) < HEAP {
        return false;
    }
    if start >= read(rows, TOP) {
        return false;
    }
    read(rows, start as usize) != BOOL_VALUE
}

// How many values of the sheet come before the first bool.
pub fn clear_of(rows: &[u32]) -> usize
    ensures { Clear rows.now result }
{
    let n = count(rows, VALUE) as usize;
    if n > 1024 {
        return 0;
    }
    let b = base_of(VALUE);
    for i in 0..n {
        if !is_clear(rows, b + i) {
            return i;
        }
    }
    n
}

// The bool, which is none of the sheet's first `skip` values.
pub fn make_bool_after(rows: &mut [u32], skip: usize, truth: bool) -> u32
    requires { Clear rows.old skip }
    ensures { Made rows.old (bool_row truth) rows.new result }
{
    if truth {
        let v = find_bool(rows, skip, 1);
        return make_at(rows, v, &[BOOL_VALUE, 1]);
    }
    let v = find_bool(rows, skip, 0);
    make_at(rows, v, &[BOOL_VALUE, 0])
}

// The bool.
pub fn make_bool(rows: &mut [u32], truth: bool) -> u32
    ensures { Made rows.old (bool_row truth) rows.new result }
{
    make_bool_after(rows, 0, truth)
}

// The long that is held as its number plus 2^63.
pub fn make_long(rows: &mut [u32], long: u64) -> u32
    ensures { Made rows.old (long_row long) rows.new result }
{
    let r = [
        LONG_VALUE,
        (long / 4294967296) as u32,
        (long % 4294967296) as u32,
    ];
    make(rows, &r)
}

// The entity of a kind and a text.
pub fn make_entity(rows: &mut [u32], kind: u32, text: u32) -> u32
    ensures { Made rows.old (entity_row kind text) rows.new result }
{
    let r = [ENTITY_VALUE, kind, text];
    make(rows, &r)
}

// The lower of the best so far and `value`, if `value` is not below `low`.
fn lower(low: usize, best: Option<u32>, value: u32) -> Option<u32>
    ensures { value_found result ≡ lower_of low (value_found best) value }
{
    if (value as usize) < low {
        return best;
    }
    match best {
        None => Some(value),
        Some(y) => Some(y.min(value)),
    }
}

// The least value of these rows that is not below `low`.
fn least(words: &[u32], low: usize) -> Option<u32>
    ensures { value_found result ≡ least_of low none (values_in words.now) }
{
    let (lines, _) = words.as_chunks::<ROW>();
    let mut best = None;
    for line in lines {
        best = lower(low, best, line[SOURCE]);
    }
    best
}

// kept: a struct with the log, its end and the rows in it would lend the log out and hand it back at each call, as it grows while the rows are read.
// The values of the rows from `start` to `top`, ascending and without repeats, at the end `at` of the log while there is room; the end
// after them. The least of those left is looked for again and again.
fn selected(log: &mut [u32], at: usize, start: usize, top: usize) -> usize
    requires room { Room log.old at }
    requires top_le_at { top ≤ at }
    ensures { Holds at log.new result (push_all (take at log.old) (sort_n (values_in (part log.old start top)))) }
{
    let mut p = at;
    let mut lo: usize = 0;
    while let Some(x) = least(cut(log, start, top), lo) {
        p = push(log, p, x);
        lo = x as usize + 1;
    }
    p
}

// The words from `start` to `end` move one place on, and `value` stands before them.
fn shift(log: &mut [u32], start: usize, end: usize, value: u32)
    requires { (start ≤ end) × (end < length log.old) }
    ensures { Shifted log.old start end value log.new }
{
    log.copy_within(start..end, start + 1);
    log[start] = value;
}

// The number `value` in its place among the words from `at` to `end`, unless it is there; the end after them.
fn insert(log: &mut [u32], at: usize, end: usize, value: u32) -> usize
    requires { (at ≤ end) × (end < length log.old) }
    ensures { Inserted log.old at end value log.new result }
{
    let j = at + crate::reach(cut(log, at, end), value, 0);
    if is_there(log, j, end, value) {
        return end;
    }
    shift(log, j, end, value);
    end + 1
}

// The values of the rows from `start` to `top`, ascending and without repeats, at the end `at` of the log, which has room for them; the
// end after them. Each is put in its place, the last row's first.
fn inserted(log: &mut [u32], at: usize, start: usize, top: usize) -> usize
    requires room { Room log.old at }
    requires top_le_at { (top ≤ at) × (at + length (part log.old start top) ≤ 16384) }
    ensures { Holds at log.new result (push_all (take at log.old) (sort_n (values_in (part log.old start top)))) }
{
    let mut p = at;
    let n = cut(log, start, top).len() / ROW;
    for i in (0..n).rev() {
        let x = read(log, start + ROW * i + SOURCE);
        p = insert(log, at, p, x);
    }
    p
}

// The values of the rows from `start` to `top`, ascending and without repeats, at the end `at` of the log; the end after them.
fn ascending(log: &mut [u32], at: usize, start: usize, top: usize) -> usize
    requires room { Room log.old at }
    requires top_le_at { top ≤ at }
    ensures { Holds at log.new result (push_all (take at log.old) (sort_n (values_in (part log.old start top)))) }
{
    let n = cut(log, start, top).len();
    if n > 16384 {
        return selected(log, at, start, top);
    }
    if at + n > 16384 {
        return selected(log, at, start, top);
    }
    inserted(log, at, start, top)
}

// The set of the values of the rows from `start` to the log's end.
pub fn make_set(rows: &mut [u32], log: &mut [u32], start: usize, top: usize) -> u32
    requires { Room log.old top }
    ensures { MadeBeside rows.old rows.new result top log.old log.new (set_row (part log.old start top)) }
{
    let q = push(log, top, SET_VALUE);
    let e = ascending(log, q, start, top);
    make(rows, cut(log, top, e))
}

// The texts of a node's row with the values of the rows from `start` to `top`, at the end `at` of the log; the end after them.
fn paired(log: &mut [u32], at: usize, start: usize, top: usize, line: &[u32]) -> usize
    requires room { Room log.old at }
    requires start_le_top { (start ≤ top) × (top ≤ at) }
    ensures { Holds at log.new result (push_all (take at log.old) (pairs_of (drop 2 line.now) (part log.old start top))) }
{
    let (pairs, _) = cut(line, 2, line.len()).as_chunks::<2>();
    let mut p = at;
    let mut q = start;
    for pair in pairs {
        if top < q + ROW {
            return p;
        }
        let v = read(log, q + SOURCE);
        p = push(log, p, pair[0]);
        p = push(log, p, v);
        q += ROW;
    }
    p
}

// The record of the texts of a node and the values of the rows from `start` to the log's end.
pub fn make_record(rows: &mut [u32], log: &mut [u32], start: usize, top: usize, node: u32) -> u32
    requires room { Room log.old top }
    requires start_le_top { start ≤ top }
    ensures { MadeBeside rows.old rows.new result top log.old log.new (record_row (get_or (rows_of rows.old NODE) node []) (part log.old start top)) }
{
    let q = push(log, top, RECORD_VALUE);
    let e = paired(log, q, start, top, row(rows, NODE, node));
    make(rows, cut(log, top, e))
}
