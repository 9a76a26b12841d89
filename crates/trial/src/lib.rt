// Calls tried by running: records from standard input, slices and buffers that hold a mark before a call and are looked at after it.
#![tactic(auto)]

ghost use Rattle.std.specs.Prelude.{◌≡◌, false, cond, ◌≤◌, ℕ, List, length, take, drop, MatchOption};
ghost use Rattle.authorizer.specs.Called.{Called};
ghost use Rattle.trial.specs.Lent.{mark, marks, entry_of, every, words_kept, Taken};
ghost use Rattle.trial.specs.Lending.{IsTooMuch, Lends};

use authorizer::{Returned, complete, partial};
use scan::front;
use streams::read_full;
use words::{ROOM, cut};

// What stands in every lent word and byte before a call.
const MARK: u8 = 165;

const MARKED: u32 = MARK as u32;

// ---- reading: what stands on standard input is free

// The next byte, 0 after the last.
fn next(rt: &impl Input) -> u8 {
    let mut b = [0u8; 1];
    read_full(&mut rt.reader(), &mut b);
    b[0]
}

// The next number, of at most seven digits, with the byte after it.
pub fn number(rt: &impl Input) -> usize
    ensures { result ≤ 9999999 }
{
    let mut n = 0;
    for _ in 0..8 {
        match next(rt) {
            b @ b'0'..=b'9' if n <= 999999 => n = n * 10 + usize::from(b - b'0'),
            _ => return n,
        }
    }
    n
}

// The next n bytes, at the start of the space.
pub fn take(rt: &impl Input, space: &mut [u8], n: usize)
    ensures { Taken space.old n space.new }
{
    if n <= space.len() {
        read_full(&mut rt.reader(), &mut space[0..n]);
    }
}

// The same, and these bytes of the space.
pub fn taken<'a>(rt: &impl Input, space: &'a mut [u8], n: usize) -> &'a [u8]
    ensures { (is : List ℕ) × Taken space.old n is × (result.now ≡ take n is) }
{
    take(rt, space, n);
    front(space, n)
}

// ---- the call

// The entry that is the complete one; any other number is the partial one.
const COMPLETE: usize = 1;

// The call of an entry in marked slices.
pub fn call(
    entry: usize,
    sheet: &[u8],
    work1: &mut [u32],
    work2: &mut [u32],
    out: &mut [u8],
) -> Returned
    ensures { Called (entry_of entry) sheet.now (marks (length work1.old)) (marks (length work2.old)) (marks (length out.old)) result.number result.line result.length out.new work1.new work2.new }
{
    work1.fill(MARKED);
    work2.fill(MARKED);
    out.fill(MARK);
    match entry {
        COMPLETE => complete(sheet, work1, work2, out),
        _ => partial(sheet, work1, work2, out),
    }
}

// ---- what came back

// Whether every word is x.
fn is_every(words: &[u32], x: u32) -> bool
    ensures { result ≡ every x words.now }
{
    words.iter().all(|&word| word == x)
}

// Whether a marked work slice came back as promised, after a call that returned a number.
#[tactic(auto, unfolding(crate::specs::Lent::words_kept))]
pub fn words_kept(number: u32, words: &[u32]) -> bool
    ensures { result ≡ words_kept number words.now }
{
    if number == 1 {
        return is_every(words, MARKED);
    }
    is_every(cut(words, 0, ROOM), 0) && is_every(cut(words, ROOM, words.len()), MARKED)
}

// How many bytes of the buffer have changed.
pub fn written(accepted: bool, length: usize) -> usize
    ensures { result ≡ cond accepted length 0 }
{
    if accepted { length } else { 0 }
}

// Whether the bytes of a marked buffer from a place on are as they were.
pub fn bytes_kept(out: &[u8], from: usize) -> bool
    ensures { result ≡ every mark (drop from out.now) }
{
    out.iter().skip(from).all(|&byte| byte == MARK)
}

// ---- what is lent

// The words of each work slice and the bytes of the buffer that a record lends,
#[derive(Clone, Copy)]
pub struct Lengths {
    pub first: usize,
    pub second: usize,
    pub buffer: usize,
}

// and so many at most.
pub const WORDS: usize = 16400;

pub const BYTES: usize = 65536;

// What a call says in marked slices and a marked buffer of these lengths, where there is so much to lend.
pub fn lend<T, C: FnOnce(&mut [u32], &mut [u32], &mut [u8]) -> T>(
    lengths: Lengths,
    call: C,
) -> Option<T>
    requires { C.IsAlwaysCallable call }
    ensures { MatchOption result (IsTooMuch lengths) (λ said. Lends C.FnOnce call lengths said) }
{
    if lengths.first > WORDS || lengths.second > WORDS || lengths.buffer > BYTES {
        return None;
    }
    let mut first = [MARKED; WORDS];
    let mut second = [MARKED; WORDS];
    let mut out = [MARK; BYTES];
    Some(call(
        &mut first[..lengths.first],
        &mut second[..lengths.second],
        &mut out[..lengths.buffer],
    ))
}

// ---- what is printed of it

// How what was lent came back.
fn came_back(kept: bool) -> &'static str {
    if kept { "kept" } else { "NOT KEPT" }
}

// A line with what a call returned, and whether what was lent came back as promised; then the answer. It only writes, and no contract can speak of
// what the system's write moves; what is written is held to the file `stdout` of the program that calls it.
pub fn report(rt: &impl Print, r: Returned, a: &[u32], b: &[u32], out: &[u8]) {
    let n = written(r.number == 0, r.length);
    let _ = println!(rt;
        ": {},{},{}; first slice {}, second slice {}, buffer {}",
        r.number,
        r.line,
        r.length,
        came_back(words_kept(r.number, a)),
        came_back(words_kept(r.number, b)),
        came_back(bytes_kept(out, n))
    );
    let _ = rt.write_all(front(out, n));
}

// ---- records

// What the line of a record says after the bytes of the record's name, which is printed: two numbers and what is lent.
pub fn heading(rt: &(impl Input + Print)) -> (usize, usize, Lengths)
    ensures one { result.0 ≤ 9999999 }
    ensures other { result.1 ≤ 9999999 }
{
    let named = number(rt);
    let (one, other) = (number(rt), number(rt));
    let lengths = Lengths {
        first: number(rt),
        second: number(rt),
        buffer: number(rt),
    };
    let mut name = [0u8; 64];
    let _ = rt.write_all(taken(rt, &mut name, named));
    (one, other, lengths)
}

// A call in what is lent, and the report of it, where there is so much to lend; whether there is.
pub fn try_call<C: FnOnce(&mut [u32], &mut [u32], &mut [u8]) -> Returned>(
    rt: &impl Print,
    lengths: Lengths,
    call: C,
) -> bool
    requires { C.IsAlwaysCallable call }
    ensures { result ≡ false → IsTooMuch lengths }
{
    lend(lengths, |a, b, out| {
        let r = call(a, b, out);
        report(rt, r, a, b, out);
    })
    .is_some()
}
