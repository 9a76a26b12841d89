// Longs, Cedar's 64-bit signed numbers, each held as one word: the number plus 2^63. The order of words is that of the numbers.
#![tactic(auto)]

ghost use Rattle.std.specs.Prelude.{◌≡◌, ◌+◌, ◌*◌, ◌/◌, ◌%◌, nat_abs, neg_ℤ, ◌+ℤ◌, ◌-ℤ◌, ◌*ℤ◌};
ghost use Rattle.std.specs.Int.Signed.{lt_z, le_z};
ghost use Rattle.sheet.specs.Bytes.{long_at};
ghost use Rattle.long.specs.Ranged.{number_of, ranged, opposite};
ghost use Rattle.long.specs.Products.{among, positive, by_signs, case_of, outside, the_case};

// 2^63, which a word is more than its number.
const HALF: u64 = 9223372036854775808;

const GREATEST: u64 = 9223372036854775807;

// The words of -2^63, 0 and 1.
const SMALLEST: u64 = 0;

const ZERO: u64 = 9223372036854775808;

const ONE: u64 = 9223372036854775809;

// The operations give the word of a result, or none where it leaves the 64-bit range.
pub fn add(a: u64, b: u64) -> Option<u64>
    ensures { number_of result ≡ ranged (long_at a +ℤ long_at b) }
{
    if a < HALF {
        return b.checked_sub(HALF - a);
    }
    b.checked_add(a - HALF)
}

pub fn sub(a: u64, b: u64) -> Option<u64>
    ensures { number_of result ≡ ranged (long_at a -ℤ long_at b) }
{
    if a < b {
        return HALF.checked_sub(b - a);
    }
    HALF.checked_add(a - b)
}

pub fn neg(a: u64) -> Option<u64>
    ensures { number_of result ≡ ranged (neg_ℤ (long_at a)) }
{
    (u64::MAX - a).checked_add(1)
}

// The size of a number, without its sign.
fn size(a: u64) -> u64
    ensures { result ≡ nat_abs (long_at a) }
{
    a.abs_diff(HALF)
}

// Whether just one of two numbers is negative.
fn opposed(a: u64, b: u64) -> bool
    ensures { result ≡ opposite a b }
{
    (a < HALF) != (b < HALF)
}

// The cases of a product, by the signs of its factors, in their order: each holds where those before it do not.
#[derive(Clone, Copy)]
enum Case {
    WithZero,
    WithSmallest,
    BothPositive,
    PositiveNegative,
    NegativePositive,
    BothNegative,
}

// Whether one of two factors is the number of the word `w`.
fn is_among(w: u64, a: u64, b: u64) -> bool
    ensures { result ≡ among (long_at w) (long_at a) (long_at b) }
{
    a == w || b == w
}

// The pair of signs of two factors.
fn by_signs(a: u64, b: u64) -> Case
    ensures { the_case result ≡ by_signs (positive (long_at a)) (positive (long_at b)) }
{
    match (a > ZERO, b > ZERO) {
        (true, true) => Case::BothPositive,
        (true, false) => Case::PositiveNegative,
        (false, true) => Case::NegativePositive,
        (false, false) => Case::BothNegative,
    }
}

fn case_of(a: u64, b: u64) -> Case
    ensures { the_case result ≡ case_of (long_at a) (long_at b) }
{
    if is_among(ZERO, a, b) {
        return Case::WithZero;
    }
    if is_among(SMALLEST, a, b) {
        return Case::WithSmallest;
    }
    by_signs(a, b)
}

// Whether a product is outside the 64-bit range, by the test of its case: the one place that decides it.
fn product_outside(a: u64, b: u64) -> bool
    ensures { result ≡ outside (case_of (long_at a) (long_at b)) (long_at a) (long_at b) }
{
    let m = size(a);
    let n = size(b);
    match case_of(a, b) {
        Case::WithZero => false,
        Case::WithSmallest => !is_among(ONE, a, b),
        Case::BothPositive => m > GREATEST / n,
        Case::PositiveNegative => n > HALF / m,
        Case::NegativePositive => m > HALF / n,
        Case::BothNegative => m > GREATEST / n,
    }
}

pub fn mul(a: u64, b: u64) -> Option<u64>
    ensures { number_of result ≡ ranged (long_at a *ℤ long_at b) }
{
    if product_outside(a, b) {
        return None;
    }
    let size = size(a) * size(b);
    if opposed(a, b) {
        return Some(HALF - size);
    }
    Some(HALF + size)
}

pub fn less(a: u64, b: u64) -> bool
    ensures { result ≡ lt_z (long_at a) (long_at b) }
{
    a < b
}

pub fn at_most(a: u64, b: u64) -> bool
    ensures { result ≡ le_z (long_at a) (long_at b) }
{
    a <= b
}

// The two words of 32 bits that a table keeps of a long, and the long again.
pub fn high(w: u64) -> u32
    ensures { result ≡ w / 4294967296 }
{
    (w / 4294967296) as u32
}

pub fn low(w: u64) -> u32
    ensures { result ≡ w % 4294967296 }
{
    (w % 4294967296) as u32
}

pub fn joined(hi: u32, lo: u32) -> u64
    ensures { result ≡ hi * 4294967296 + lo }
{
    (hi as u64) * 4294967296 + (lo as u64)
}
