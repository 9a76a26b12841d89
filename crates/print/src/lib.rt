// Writing into a buffer that the caller lends, from a place on. A byte is stored where there is room and counted always, so that one
// run gives the length needed; the rest of the buffer stays. The count stays at the greatest usize once it gets there.
#![tactic(auto)]

ghost use Rattle.std.specs.Prelude.{◌≡◌, ◌≤◌, [], ◌∷◌, length};
ghost use Rattle.sheet.specs.Bytes.{long_at, digits, signed};
ghost use Rattle.print.specs.Written.{Written, greatest};

// What a call over a lent buffer returns: number and line of a refusal, or 0 and 0; the bytes of the answer, also where the buffer is too short
// for them.
#[derive(Clone, Copy)]
pub struct Returned {
    pub number: u32,
    pub line: usize,
    pub length: usize,
}

const GREATEST: usize = 18446744073709551615;

// One byte at a place, and the place after it.
fn byte_at(buffer: &mut [u8], at: usize, b: u8) -> usize
    ensures { Written buffer.old at (b ∷ []) buffer.new result }
{
    if at < buffer.len() {
        buffer[at] = b;
        return at + 1;
    }
    if at < GREATEST {
        return at + 1;
    }
    at
}

// A run of bytes from a place on, likewise.
fn bytes_at(buffer: &mut [u8], at: usize, text: &[u8]) -> usize
    ensures { Written buffer.old at text.now buffer.new result }
{
    let mut place = at;
    for &b in text {
        place = byte_at(buffer, place, b);
    }
    place
}

// A number's decimal digits from a place on, likewise.
fn number_at(buffer: &mut [u8], at: usize, n: u64) -> usize
    ensures { Written buffer.old at (digits n) buffer.new result }
{
    if n < 10 {
        return byte_at(buffer, at, (48 + n) as u8);
    }
    let q = n / 10;
    if n < 100 {
        let tens = byte_at(buffer, at, (48 + q) as u8);
        return byte_at(buffer, tens, (48 + n % 10) as u8);
    }
    let mid = number_at(buffer, at, q);
    byte_at(buffer, mid, (48 + n % 10) as u8)
}

// A lent buffer that is written from its front or from a place on, and the place where the next byte goes.
#[derive(Drop)]
pub struct Out<'a> {
    buffer: &'a mut [u8],
    at: usize,
    ghost countable: { (at ≤ greatest) × (length buffer.now ≤ greatest) },
}

impl<'a> Out<'a> {
    ghost use Rattle.print.specs.Out.{Prints};

    pub fn new(buffer: &'a mut [u8]) -> Out<'a>
        ensures same { result.buffer.ghost_name ≡ buffer.entry.ghost_name }
        ensures buffer { result.buffer.now ≡ buffer.old }
        ensures at { result.at ≡ 0 }
    {
        Out { buffer, at: 0 }
    }

    // Written from a place on, whether the buffer reaches it or not: what stands before it stays.
    pub fn from_place(buffer: &'a mut [u8], at: usize) -> Out<'a>
        ensures same { result.buffer.ghost_name ≡ buffer.entry.ghost_name }
        ensures buffer { result.buffer.now ≡ buffer.old }
        ensures at { result.at ≡ at }
    {
        Out { buffer, at }
    }

    // The place reached, with the bytes that had no room: from the front, how many were written.
    pub fn len(&self) -> usize
        ensures { result ≡ self.now.at }
    {
        self.at
    }

    // One byte.
    pub fn byte(&mut self, b: u8)
        ensures { Prints self.old (b ∷ []) self.new }
    {
        self.at = byte_at(self.buffer, self.at, b);
    }

    // A run of bytes: a word of the format, or a text of the sheet.
    pub fn bytes(&mut self, text: &[u8])
        ensures { Prints self.old text.now self.new }
    {
        self.at = bytes_at(self.buffer, self.at, text);
    }

    // A number's decimal digits.
    pub fn number(&mut self, n: u64)
        ensures { Prints self.old (digits n) self.new }
    {
        self.at = number_at(self.buffer, self.at, n);
    }

    // A long, from its word.
    pub fn long(&mut self, word: u64)
        ensures { Prints self.old (signed (long_at word)) self.new }
    {
        if word < 9223372036854775808 {
            self.byte(b'-');
            self.number(9223372036854775808 - word);
            return;
        }
        self.number(word - 9223372036854775808);
    }
}
