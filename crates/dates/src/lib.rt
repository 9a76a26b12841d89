// Dates: `yyyy-mm-dd` read as the number yyyymmdd, so that a later day has a greater number.
#![tactic(auto)]

ghost use Rattle.std.specs.Prelude.{◌≡◌};
ghost use Rattle.sheet.specs.Bytes.{leap_year, days_in, is_date, date};
ghost use Rattle.scan.specs.Numbers.{number_of};

use scan::digits;

// The first and the last year.
const FIRST_YEAR: u64 = 1900;

const LAST_YEAR: u64 = 2199;

// Every fourth year but the hundredth, and the four hundredth.
fn is_leap(year: u64) -> bool
    ensures { result ≡ leap_year year }
{
    if year % 4 != 0 {
        return false;
    }
    if year % 100 != 0 {
        return true;
    }
    year % 400 == 0
}

// The days of a month; 0 where there is no such month.
fn days_in(year: u64, month: u64) -> u64
    ensures { result ≡ days_in year month }
{
    match month {
        1 => 31,
        2 => {
            if is_leap(year) {
                return 29;
            }
            28
        }
        3 => 31,
        4 => 30,
        5 => 31,
        6 => 30,
        7 => 31,
        8 => 31,
        9 => 30,
        10 => 31,
        11 => 30,
        12 => 31,
        _ => 0,
    }
}

// Whether yyyymmdd is a day from 1900-01-01 to 2199-12-31.
fn is_date(n: u64) -> bool
    ensures { result ≡ is_date n }
{
    let year = n / 10000;
    if year < FIRST_YEAR {
        return false;
    }
    if year > LAST_YEAR {
        return false;
    }
    let day = n % 100;
    if day < 1 {
        return false;
    }
    let last = days_in(year, n / 100 % 100);
    day <= last
}

// A date: ten bytes, two of them dashes.
pub fn date_of(bytes: &[u8]) -> Option<u64>
    ensures { number_of result ≡ date bytes.now }
{
    if bytes.len() != 10 {
        return None;
    }
    if bytes[4] != b'-' {
        return None;
    }
    if bytes[7] != b'-' {
        return None;
    }
    let d = [
        bytes[0], bytes[1], bytes[2], bytes[3], bytes[5], bytes[6], bytes[8], bytes[9],
    ];
    let n = digits(&d)?;
    if is_date(n) {
        return Some(n);
    }
    None
}
