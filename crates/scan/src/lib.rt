// Bytes of a sheet: parts, lines, items, words and numbers. A text is handed on as a part of the sheet, never copied.
#![tactic(auto)]

ghost use Rattle.std.specs.Prelude.{◌≡◌, ◌+◌, ◌<◌, ◌≤◌, ◌==◌, not, length, take, drop, position};
ghost use Rattle.std.proofs.Math.Option.{some};
ghost use Rattle.words.specs.Log.{part};
ghost use Rattle.sheet.specs.Bytes.{up_to, split, printable, digits_from, decimal, at_most, index, half, downward, long};
ghost use Rattle.sheet.specs.Forms.{keys, word_number, tag_of, TYPE, VALUE, NODE};
ghost use Rattle.scan.specs.Numbers.{number_of, known_form, placed, form_after, Packed, WordRead};
ghost use Rattle.scan.specs.Places.{is_printable, plain_to, Marked, ended_at, HeadingRead, LineRead, DigitRead, LeadingRead, ItemRead, NumberRead};

use forms::{
    ACTION, ADD, ALL, AND, ANY, BOOL_TYPE, BOOL_VALUE, CONTAINS, CONTEXT, DAY, EMPTY, ENTITY,
    ENTITY_TYPE, ENTITY_VALUE, EQ, ERR, GET, GETTAG, HAS, HASPATH, HASTAG, IF, IN, IS, KIND, LE,
    LIKE, LINK, LIT, LONG_TYPE, LONG_VALUE, LT, MUL, NEG, NO_TAG, NODE, NOT, OR, POLICY, PRINCIPAL,
    RECORD_OF, RECORD_TYPE, RECORD_VALUE, RESOURCE, SET_OF, SET_TYPE, SET_VALUE, SHAPE, SHEET,
    SLOT, STRING_TYPE, SUB, TERM, TEXT, TEXT_VALUE, TYPE, VALUE, VAR,
};

// 2^63, which a long is held above.
const HALF: u64 = 9223372036854775808;

// Eight bytes as one number: 1 and 128 in each, and what takes 32 from each.
const EACH_1: u64 = 0x0101_0101_0101_0101;

const EACH_128: u64 = 0x8080_8080_8080_8080;

const LESS_32: u64 = 0xdfdf_dfdf_dfdf_dfe0;

// The first forms of types, of values and of nodes, and what stands for a form that there is not.
const FIRST_TYPE: u64 = BOOL_TYPE as u64;

const FIRST_VALUE: u64 = BOOL_VALUE as u64;

const FIRST_NODE: u64 = LIT as u64;

const NO_FORM: u64 = NO_TAG as u64;

// The place reached in a sheet: the line, counted from 1, and the byte, from 0.
#[derive(Clone, Copy)]
pub struct Cursor {
    pub line: usize,
    pub at: usize,
}

// A line: its key, the cursor at its first `=`, its end, and the cursor at the next line.
#[derive(Clone, Copy)]
pub enum Line {
    Entry {
        key: u64,
        equals: Cursor,
        end: usize,
        next: Cursor,
    },
    Faulty,
    End,
}

// ---- parts

// The bytes before byte `end`.
pub fn front(bytes: &[u8], end: usize) -> &[u8]
    ensures { result.now ≡ take end bytes.now }
{
    if end <= bytes.len() {
        return &bytes[0..end];
    }
    bytes
}

// The bytes from byte `start` on.
pub fn rest(bytes: &[u8], start: usize) -> &[u8]
    ensures { result.now ≡ drop start bytes.now }
{
    if start <= bytes.len() {
        return &bytes[start..];
    }
    &bytes[0..0]
}

// The part from byte `start` to byte `end`, cut at the end.
pub fn part_of(bytes: &[u8], start: usize, end: usize) -> &[u8]
    ensures { result.now ≡ part bytes.now start end }
{
    if end <= bytes.len() {
        if start <= end {
            return &bytes[start..end];
        }
        return &bytes[end..end];
    }
    rest(bytes, start)
}

// Where the first `byte` stands.
fn first(bytes: &[u8], byte: u8) -> Option<usize>
    ensures { result ≡ position (λ x. x == byte) bytes.now }
{
    bytes.iter().position(|&b| b == byte)
}

// Where the first `byte` at or after `from` stands, or the end.
pub fn find(bytes: &[u8], from: usize, byte: u8) -> usize
    ensures { result ≡ from + up_to byte (drop from bytes.now) }
{
    let left = rest(bytes, from);
    from + first(left, byte).unwrap_or(left.len())
}

// Whether a byte is printable.
fn plain(byte: u8) -> bool
    ensures { result ≡ is_printable byte }
{
    if byte < 32 {
        return false;
    }
    byte <= 126
}

// ---- words

// The place of a word in a list of words with commas between them.
pub fn place(word: &[u8], list: &[u8]) -> Option<u64>
    ensures { number_of result ≡ placed word.now (split 44 list.now) }
{
    // kept: the search leaps from comma to comma; `split` with `position` was tried, and the proof did not close.
    let mut i: u64 = 0;
    let mut a = 0;
    loop {
        let e = find(list, a, b',');
        if word == part_of(list, a, e) {
            return Some(i);
        }
        if e >= list.len() {
            return None;
        }
        i += 1;
        a = e + 1;
    }
}

// Byte `i` as a number.
fn one(bytes: &[u8], i: usize) -> u64
    requires { i < length bytes.now }
    ensures { Packed bytes.now i 1 result }
{
    bytes[i] as u64
}

// Two bytes from byte `i` on as one number, the first the lowest.
fn two(bytes: &[u8], i: usize) -> u64
    requires { i + 2 ≤ length bytes.now }
    ensures { Packed bytes.now i 2 result }
{
    one(bytes, i) + 256 * one(bytes, i + 1)
}

// The same of three.
fn three(bytes: &[u8], i: usize) -> u64
    requires { i + 3 ≤ length bytes.now }
    ensures { Packed bytes.now i 3 result }
{
    two(bytes, i) + 65536 * one(bytes, i + 2)
}

// The same of four.
fn four(bytes: &[u8], i: usize) -> u64
    requires { i + 4 ≤ length bytes.now }
    ensures { Packed bytes.now i 4 result }
{
    two(bytes, i) + 65536 * two(bytes, i + 2)
}

// A word of two to seven bytes as one number: its bytes, the first the lowest, and 1 after them; 0 for any other.
fn word_of(bytes: &[u8]) -> u64
    ensures { WordRead bytes.now result }
{
    match bytes.len() {
        2 => 0x1_0000 + two(bytes, 0),
        3 => 0x100_0000 + three(bytes, 0),
        4 => 0x1_0000_0000 + four(bytes, 0),
        5 => 0x100_0000_0000 + (four(bytes, 0) + 0x1_0000_0000 * one(bytes, 4)),
        6 => 0x1_0000_0000_0000 + (four(bytes, 0) + 0x1_0000_0000 * two(bytes, 4)),
        7 => 0x100_0000_0000_0000 + (four(bytes, 0) + 0x1_0000_0000 * three(bytes, 4)),
        _ => 0,
    }
}

// The number of a key, found in the list of all.
fn listed_key(name: &[u8]) -> Option<u64>
    ensures { number_of result ≡ word_number name.now keys }
{
    place(
        name,
        b"sheet,text,kind,type,shape,value,entity,principal,action,resource,context,day,node,policy,link,term",
    )
}

// The same, where keys of more than seven letters are tried first.
fn long_key(name: &[u8]) -> Option<u64>
    ensures { number_of result ≡ word_number name.now keys }
{
    if name == b"principal".as_slice() {
        return Some(PRINCIPAL as u64);
    }
    if name == b"resource".as_slice() {
        return Some(RESOURCE as u64);
    }
    listed_key(name)
}

// The number of a key, in the order of the keys.
pub fn key_of(name: &[u8]) -> Option<u64>
    ensures { number_of result ≡ word_number name.now keys }
{
    match word_of(name) {
        0x0174_6565_6873 => Some(SHEET as u64), // sheet
        0x01_7478_6574 => Some(TEXT as u64), // text
        0x01_646e_696b => Some(KIND as u64), // kind
        0x01_6570_7974 => Some(TYPE as u64), // type
        0x0165_7061_6873 => Some(SHAPE as u64), // shape
        0x0165_756c_6176 => Some(VALUE as u64), // value
        0x01_7974_6974_6e65 => Some(ENTITY as u64), // entity
        0x01_6e6f_6974_6361 => Some(ACTION as u64), // action
        0x0174_7865_746e_6f63 => Some(CONTEXT as u64), // context
        0x0179_6164 => Some(DAY as u64), // day
        0x01_6564_6f6e => Some(NODE as u64), // node
        0x01_7963_696c_6f70 => Some(POLICY as u64), // policy
        0x01_6b6e_696c => Some(LINK as u64), // link
        0x01_6d72_6574 => Some(TERM as u64), // term
        _ => long_key(name),
    }
}

// The form that stands so many places after a key's first, none past the table's end.
fn form_after(first: u64, found: Option<u64>) -> Option<u64>
    ensures { result ≡ known_form (form_after first (number_of found)) }
{
    let p = found?;
    if first >= NO_FORM {
        return None;
    }
    if p < NO_FORM - first {
        return Some(first + p);
    }
    None
}

// The form of a type by its constructor, found in the list of all.
fn listed_type(name: &[u8]) -> Option<u64>
    ensures { result ≡ known_form (tag_of TYPE name.now) }
{
    form_after(
        FIRST_TYPE,
        place(name, b"bool,long,string,entity,set,record"),
    )
}

// The form of a type by its constructor.
pub fn type_form(name: &[u8]) -> Option<u64>
    ensures { result ≡ known_form (tag_of TYPE name.now) }
{
    match word_of(name) {
        0x01_6c6f_6f62 => Some(BOOL_TYPE as u64), // bool
        0x01_676e_6f6c => Some(LONG_TYPE as u64), // long
        0x01_676e_6972_7473 => Some(STRING_TYPE as u64), // string
        0x01_7974_6974_6e65 => Some(ENTITY_TYPE as u64), // entity
        0x0174_6573 => Some(SET_TYPE as u64), // set
        0x01_6472_6f63_6572 => Some(RECORD_TYPE as u64), // record
        _ => listed_type(name),
    }
}

// The form of a value by its constructor, found in the list of all.
fn listed_value(name: &[u8]) -> Option<u64>
    ensures { result ≡ known_form (tag_of VALUE name.now) }
{
    form_after(
        FIRST_VALUE,
        place(name, b"bool,long,text,entity,set,record"),
    )
}

// The form of a value by its constructor.
pub fn value_form(name: &[u8]) -> Option<u64>
    ensures { result ≡ known_form (tag_of VALUE name.now) }
{
    match word_of(name) {
        0x01_6c6f_6f62 => Some(BOOL_VALUE as u64), // bool
        0x01_676e_6f6c => Some(LONG_VALUE as u64), // long
        0x01_7478_6574 => Some(TEXT_VALUE as u64), // text
        0x01_7974_6974_6e65 => Some(ENTITY_VALUE as u64), // entity
        0x0174_6573 => Some(SET_VALUE as u64), // set
        0x01_6472_6f63_6572 => Some(RECORD_VALUE as u64), // record
        _ => listed_value(name),
    }
}

// The form of a node by its operation, found in the list of all.
fn listed_form(name: &[u8]) -> Option<u64>
    ensures { result ≡ known_form (tag_of NODE name.now) }
{
    form_after(
        FIRST_NODE,
        place(
            name,
            b"lit,err,var,and,or,eq,lt,le,add,sub,mul,in,gettag,hastag,contains,all,any,if,is,like,get,has,haspath,not,neg,empty,set,record,slot",
        ),
    )
}

// The same, where operations of two letters are tried first.
fn short_form(name: &[u8]) -> Option<u64>
    ensures { result ≡ known_form (tag_of NODE name.now) }
{
    match word_of(name) {
        0x01_726f => Some(OR as u64), // or
        0x01_7165 => Some(EQ as u64), // eq
        0x01_746c => Some(LT as u64), // lt
        0x01_656c => Some(LE as u64), // le
        0x01_6e69 => Some(IN as u64), // in
        0x01_6669 => Some(IF as u64), // if
        0x01_7369 => Some(IS as u64), // is
        _ => listed_form(name),
    }
}

// The same, where operations of three letters are tried first.
fn middle_form(name: &[u8]) -> Option<u64>
    ensures { result ≡ known_form (tag_of NODE name.now) }
{
    match word_of(name) {
        0x0174_696c => Some(LIT as u64), // lit
        0x0172_7265 => Some(ERR as u64), // err
        0x0172_6176 => Some(VAR as u64), // var
        0x0164_6e61 => Some(AND as u64), // and
        0x0164_6461 => Some(ADD as u64), // add
        0x0162_7573 => Some(SUB as u64), // sub
        0x016c_756d => Some(MUL as u64), // mul
        0x016c_6c61 => Some(ALL as u64), // all
        0x0179_6e61 => Some(ANY as u64), // any
        0x0174_6567 => Some(GET as u64), // get
        0x0173_6168 => Some(HAS as u64), // has
        0x0174_6f6e => Some(NOT as u64), // not
        0x0167_656e => Some(NEG as u64), // neg
        0x0174_6573 => Some(SET_OF as u64), // set
        _ => listed_form(name),
    }
}

// The same, where longer operations are tried first.
fn long_form(name: &[u8]) -> Option<u64>
    ensures { result ≡ known_form (tag_of NODE name.now) }
{
    if name == b"contains".as_slice() {
        return Some(CONTAINS as u64);
    }
    match word_of(name) {
        0x01_6761_7474_6567 => Some(GETTAG as u64), // gettag
        0x01_6761_7473_6168 => Some(HASTAG as u64), // hastag
        0x01_656b_696c => Some(LIKE as u64), // like
        0x0168_7461_7073_6168 => Some(HASPATH as u64), // haspath
        0x0179_7470_6d65 => Some(EMPTY as u64), // empty
        0x01_6472_6f63_6572 => Some(RECORD_OF as u64), // record
        0x01_746f_6c73 => Some(SLOT as u64), // slot
        _ => listed_form(name),
    }
}

// The form of a node by its operation.
pub fn node_form(name: &[u8]) -> Option<u64>
    ensures { result ≡ known_form (tag_of NODE name.now) }
{
    match name.len() {
        2 => short_form(name),
        3 => middle_form(name),
        _ => long_form(name),
    }
}

// ---- numbers

// The number that digits write, leading zeros or not, at most 2^63.
pub fn digits(bytes: &[u8]) -> Option<u64>
    ensures { number_of result ≡ at_most half (digits_from 0 bytes.now) }
{
    let mut n: u64 = 0;
    for &x in bytes {
        if x < b'0' {
            return None;
        }
        if x > b'9' {
            return None;
        }
        if n > 922337203685477580 {
            return None;
        }
        n = n * 10 + (x - b'0') as u64;
    }
    if n <= HALF { Some(n) } else { None }
}

// A decimal number of at most 2^63.
fn size(bytes: &[u8]) -> Option<u64>
    ensures { number_of result ≡ at_most half (decimal bytes.now) }
{
    if bytes.len() == 0 {
        return None;
    }
    if bytes.len() == 1 {
        return digits(bytes);
    }
    if bytes[0] == b'0' {
        return None;
    }
    digits(bytes)
}

// An index, of at most four digits.
pub fn index_of(bytes: &[u8]) -> Option<u64>
    ensures { number_of result ≡ index bytes.now }
{
    let n = size(bytes)?;
    if n <= 9999 {
        return Some(n);
    }
    None
}

// The digit at byte `i`.
fn digit_at(bytes: &[u8], i: usize) -> Option<u32>
    ensures { DigitRead bytes.now i result }
{
    let &x = bytes.get(i)?;
    if x < b'0' {
        return None;
    }
    if x > b'9' {
        return None;
    }
    Some((x - b'0') as u32)
}

// The index `n` of the first `i` bytes, where a comma follows or the end.
fn ended(bytes: &[u8], n: u32, i: usize) -> Option<(u32, usize)>
    ensures { result ≡ ended_at bytes.now n i }
{
    if i >= bytes.len() {
        return Some((n, i));
    }
    if bytes[i] == b',' {
        return Some((n, i));
    }
    None
}

// The index that stands before the first comma, or the end: a zero alone, or up to four digits.
fn front_index(bytes: &[u8]) -> Option<(u32, usize)>
    ensures { LeadingRead bytes.now result }
{
    let a = digit_at(bytes, 0)?;
    if a == 0 {
        return ended(bytes, 0, 1);
    }
    let Some(b) = digit_at(bytes, 1) else {
        return ended(bytes, a, 1);
    };
    let ab = a * 10 + b;
    let Some(c) = digit_at(bytes, 2) else {
        return ended(bytes, ab, 2);
    };
    let abc = ab * 10 + c;
    let Some(d) = digit_at(bytes, 3) else {
        return ended(bytes, abc, 3);
    };
    ended(bytes, abc * 10 + d, 4)
}

// A long from its size, after `-`.
fn down(size: u64) -> Option<u64>
    ensures { number_of result ≡ downward (some size) }
{
    if size == 0 {
        return None;
    }
    HALF.checked_sub(size)
}

// A long, held as the number plus 2^63.
pub fn long_of(bytes: &[u8]) -> Option<u64>
    ensures { number_of result ≡ long bytes.now }
{
    if bytes.len() == 0 {
        return None;
    }
    if bytes[0] == b'-' {
        return down(size(&bytes[1..])?);
    }
    HALF.checked_add(size(bytes)?)
}

// ---- lines and items

// Where the first byte that is not printable stands.
fn first_other(bytes: &[u8]) -> Option<usize>
    ensures { result ≡ position (λ x. not (is_printable x)) bytes.now }
{
    bytes.iter().position(|&b| !plain(b))
}

// Marks of the eight bytes from byte `i` on, which stand as one number, the first the lowest: as many eights of zeros as bytes before the first that
// is not printable. The highest bit of a byte says so: it is set in the sum with 224, which is 32 less, under 32, and in that with 1 from 127 on.
fn marks(bytes: &[u8], i: usize) -> u64
    requires { i + 8 ≤ length bytes.now }
    ensures { Marked (take 8 (drop i bytes.now)) result }
{
    let word = four(bytes, i) + 0x1_0000_0000 * four(bytes, i + 4);
    let low = std::num::wrapping_add_u64(word, LESS_32);
    let high = std::num::wrapping_add_u64(word, EACH_1);
    (low | high | word) & EACH_128
}

// Where the first byte that is not printable stands, or the end: eight bytes at a step, then one.
// kept: the index leaps by eight as long as eight bytes are left, and the last ones are read one by one.
fn printable_end(bytes: &[u8]) -> usize
    ensures { result ≡ plain_to bytes.now }
{
    let mut i = 0;
    while 8 <= bytes.len() - i {
        let m = marks(bytes, i);
        if m != 0 {
            return i + (u64::trailing_zeros(m) / 8) as usize;
        }
        i += 8;
    }
    let left = &bytes[i..];
    i + first_other(left).unwrap_or(left.len())
}

// The key that stands before the first `=` of these bytes.
fn key_found(bytes: &[u8]) -> Option<(u64, usize)>
    ensures { HeadingRead bytes.now result }
{
    let n = find(bytes, 0, b'=');
    if n >= bytes.len() {
        return None;
    }
    let key = key_of(front(bytes, n))?;
    Some((key, n))
}

// The same, where `entity` and `policy` are tried first.
fn entity_at(bytes: &[u8]) -> Option<(u64, usize)>
    requires { 7 ≤ length bytes.now }
    ensures { HeadingRead bytes.now result }
{
    match word_of(&bytes[0..7]) {
        0x013d_7974_6974_6e65 => Some((ENTITY as u64, 6)), // entity=
        0x013d_7963_696c_6f70 => Some((POLICY as u64, 6)), // policy=
        _ => key_found(bytes),
    }
}

// The same, where `type` and `kind` are tried first.
fn type_at(bytes: &[u8]) -> Option<(u64, usize)>
    ensures { HeadingRead bytes.now result }
{
    if bytes.len() < 7 {
        return key_found(bytes);
    }
    match word_of(&bytes[0..5]) {
        0x013d_6570_7974 => Some((TYPE as u64, 4)), // type=
        0x013d_646e_696b => Some((KIND as u64, 4)), // kind=
        _ => entity_at(bytes),
    }
}

// The same, where `value` is tried first.
fn value_at(bytes: &[u8]) -> Option<(u64, usize)>
    requires { 6 ≤ length bytes.now }
    ensures { HeadingRead bytes.now result }
{
    match word_of(&bytes[0..6]) {
        0x01_3d65_756c_6176 => Some((VALUE as u64, 5)), // value=
        _ => type_at(bytes),
    }
}

// The same, where the keys of most lines are tried first.
fn key_at(bytes: &[u8]) -> Option<(u64, usize)>
    ensures { HeadingRead bytes.now result }
{
    if bytes.len() < 6 {
        return key_found(bytes);
    }
    match word_of(&bytes[0..5]) {
        0x013d_6564_6f6e => Some((NODE as u64, 4)), // node=
        0x013d_7478_6574 => Some((TEXT as u64, 4)), // text=
        _ => value_at(bytes),
    }
}

impl Cursor {
    pub fn new() -> Self
        ensures { (result.line ≡ 1) × (result.at ≡ 0) }
    {
        Cursor { line: 1, at: 0 }
    }

    // The line that begins here.
    pub fn next_line(self, sheet: &[u8]) -> Line
        ensures { LineRead sheet.now self result }
    {
        let at = self.at;
        let line = self.line;
        if at >= sheet.len() {
            return Line::End;
        }
        let s = rest(sheet, at);
        let Some((key, n)) = key_at(s) else {
            return Line::Faulty;
        };
        let v = &s[n + 1..];
        let e = printable_end(v);
        if e >= v.len() {
            return Line::Faulty;
        }
        if v[e] != b'\n' {
            return Line::Faulty;
        }
        let end = at + n + 1 + e;
        Line::Entry {
            key,
            equals: Cursor { line, at: at + n },
            end,
            next: Cursor {
                line: line.saturating_add(1),
                at: end + 1,
            },
        }
    }

    // The line's value: the part of the sheet after the `=` at the cursor, up to byte `end`.
    pub fn value(self, sheet: &[u8], end: usize) -> &[u8]
        ensures { result.now ≡ part sheet.now (self.at + 1) end }
    {
        let at = self.at;
        if at >= sheet.len() {
            return rest(sheet, at);
        }
        part_of(sheet, at + 1, end)
    }

    // The cursor at the first item of a value, whose bytes count from 0.
    pub fn items(self) -> Self
        ensures { (result.line ≡ self.line) × (result.at ≡ 0) }
    {
        let line = self.line;
        Cursor { line, at: 0 }
    }

    // The item of a value that begins at the cursor.
    pub fn item(self, bytes: &[u8]) -> Option<(usize, Cursor)>
        requires { length bytes.now < 18446744073709551615 }
        ensures { ItemRead bytes.now self result }
    {
        let at = self.at;
        let line = self.line;
        if at > bytes.len() {
            return None;
        }
        let end = find(bytes, at, b',');
        Some((end, Cursor { line, at: end + 1 }))
    }

    // That item as an index: the part that begins at the cursor is handed to the reader of digits.
    pub fn number(self, bytes: &[u8]) -> Option<(u32, Cursor)>
        requires { length bytes.now < 18446744073709551615 }
        ensures { NumberRead bytes.now self result }
    {
        let at = self.at;
        let line = self.line;
        if at > bytes.len() {
            return None;
        }
        let (n, taken) = front_index(rest(bytes, at))?;
        let next = at + taken + 1;
        Some((n, Cursor { line, at: next }))
    }
}
