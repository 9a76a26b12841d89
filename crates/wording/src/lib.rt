// The words of the program: the entry that a sheet is for, the line of a refusal, the lines of a whole firm's decisions, numbers on the command line.
#![tactic(auto)]

ghost use Rattle.std.specs.Prelude.{◌≡◌, [], ◌∷◌, ◌++◌, min};
ghost use Rattle.print.specs.Out.{Prints};
ghost use Rattle.print.specs.Written.{greatest};
ghost use Rattle.sheet.specs.Bytes.{digits_from, at_most};
ghost use Rattle.sheet.specs.Ascii.{ascii};
ghost use Rattle.sheet.specs.Answer.{decision_word};
ghost use Rattle.scan.specs.Numbers.{number_of};
ghost use Rattle.firm.specs.Parts.{decision_in, rows_in};
ghost use Rattle.firm.specs.Words.{rows_of_words};
ghost use Rattle.wording.specs.Worded.{says_complete, refusal, rows_text, quote_text, number_in};

use firm::{ALLOW, DENY, ROW};
use print::Out;
use scan::{find, front};

// ---- a sheet

// Whether the first line is exactly `sheet=complete`.
pub fn says_complete(sheet: &[u8]) -> bool
    ensures { result ≡ says_complete sheet.now }
{
    let n = find(sheet, 0, b'\n');
    let is_complete = front(sheet, n) == b"sheet=complete".as_slice();
    is_complete
}

// ---- lines

// The line of a refusal.
pub fn refused(out: &mut Out, n: u32, line: usize, length: usize)
    ensures { Prints out.old (refusal n line length) out.new }
{
    out.bytes(b"refused=");
    out.number(n as u64);
    out.byte(b',');
    out.number(line as u64);
    out.byte(b',');
    out.number(length as u64);
    out.byte(b'\n');
}

// The word of a decision that a number says.
fn decision_word(out: &mut Out, decision: u32)
    ensures { Prints out.old (ascii (decision_word (decision_in decision))) out.new }
{
    if decision == ALLOW {
        out.bytes(b"allow");
        return;
    }
    if decision == DENY {
        out.bytes(b"deny");
        return;
    }
    out.bytes(b"open");
}

// A line of a decision.
fn decision_line(out: &mut Out, key: &[u8], decision: u32)
    ensures { Prints out.old (key.now ++ (61 ∷ ascii (decision_word (decision_in decision)) ++ (10 ∷ []))) out.new }
{
    out.bytes(key);
    out.byte(b'=');
    decision_word(out, decision);
    out.byte(b'\n');
}

// A line of each row's decision, the last of a row's words.
fn row_lines(out: &mut Out, rows: &[u32])
    ensures { Prints out.old (rows_text (rows_in (rows_of_words rows.now))) out.new }
{
    for i in 0..rows.len() / ROW {
        decision_line(out, b"row", rows[i * ROW + 2]);
    }
}

// The lines of a whole firm's decisions: the group's, then one of each row's.
pub fn quote_lines(out: &mut Out, group: u32, rows: &[u32])
    ensures { Prints out.old (quote_text (decision_in group) (rows_in (rows_of_words rows.now))) out.new }
{
    decision_line(out, b"group", group);
    row_lines(out, rows);
}

// ---- numbers on the command line

// The greatest number of 64 bits.
const MOST: u64 = 18446744073709551615;

// The number that digits write, leading zeros or not: nothing wraps.
fn digits_of(word: &[u8]) -> Option<u64>
    ensures { number_of result ≡ at_most greatest (digits_from 0 word.now) }
{
    let mut n: u64 = 0;
    for &x in word {
        if x < b'0' {
            return None;
        }
        if x > b'9' {
            return None;
        }
        if n > MOST / 10 {
            return None;
        }
        let tens = n * 10;
        let digit = (x - b'0') as u64;
        if digit > MOST - tens {
            return None;
        }
        n = tens + digit;
    }
    Some(n)
}

// A decimal number.
pub fn number_of(word: &[u8]) -> Option<u64>
    ensures { number_of result ≡ number_in word.now }
{
    if word.len() == 0 {
        return None;
    }
    if word.len() == 1 {
        return digits_of(word);
    }
    if word[0] == b'0' {
        return None;
    }
    digits_of(word)
}

// The greatest number of 32 bits.
const GREATEST: u32 = 4294967295;

// A number as a call takes it: the greatest that it can be where it is greater. So many policies are refused alike, and no sheet has so many texts.
pub fn at_most(n: u64) -> u32
    ensures { result ≡ min n 4294967295 }
{
    if n > GREATEST as u64 {
        return GREATEST;
    }
    n as u32
}
