// The values that one sheet's run made, among the values of another sheet that begins with the same ones: each is found there by its
// content, or made. A number of the one sheet then has a number there.
#![tactic(auto)]

ghost use Rattle.std.specs.Prelude.{◌≡◌, [], ◌≤◌, length, take, drop};
ghost use Rattle.words.specs.Log.{Room, Holds};
ghost use Rattle.value.specs.Made.{Made};
ghost use Rattle.carried.specs.Carry.{number_there, member_rows, field_words, row_there, carried_of, Carried};

use forms::{RECORD_VALUE, SET_VALUE, VALUE};
use residual::push_value;
use table::{MADE, count, items, row, tag};
use value::making::{make, make_set};
use words::{cut, push, put, read};

// The numbers there: each of the `given` values keeps its own, that of a made one is noted.
#[derive(Clone, Copy)]
pub struct Numbers<'a> {
    pub given: u32,
    pub noted: &'a [u32],
}

impl<'a> Numbers<'a> {
    // The number there of a value.
    pub fn there(&self, value: u32) -> u32
        ensures { result ≡ number_there self.now.given self.now.noted.now value }
    {
        if value < self.given {
            return value;
        }
        read(self.noted, (value - self.given) as usize)
    }
}

// The members of a set's row by their numbers there, as rows of values from the beginning of `log` on; the end after them.
fn member_rows(line: &[u32], numbers: &Numbers, log: &mut [u32]) -> usize
    requires { 16384 ≤ length log.old }
    ensures { Holds 0 log.new result (member_rows (number_there numbers.now.given numbers.now.noted.now) (drop 1 line.now) []) }
{
    let list = items(line);
    let mut end = 0;
    for &member in list {
        end = push_value(log, end, numbers.there(member), 0);
    }
    end
}

// The words of a record's row, its values by their numbers there, from the beginning of `log` on; the end after them.
fn field_words(line: &[u32], numbers: &Numbers, log: &mut [u32]) -> usize
    requires { 16384 ≤ length log.old }
    ensures { Holds 0 log.new result (field_words (number_there numbers.now.given numbers.now.noted.now) (drop 1 line.now)) }
{
    let (pairs, _) = items(line).as_chunks::<2>();
    let mut end = push(log, 0, RECORD_VALUE);
    for pair in pairs {
        end = push(log, end, pair[0]);
        end = push(log, end, numbers.there(pair[1]));
    }
    end
}

// The number there of the value of a row, found or made.
fn carry_one(line: &[u32], numbers: &Numbers, rows: &mut [u32], log: &mut [u32]) -> u32
    requires { 16384 ≤ length log.old }
    ensures { Made rows.old (row_there (number_there numbers.now.given numbers.now.noted.now) line.now) rows.new result }
{
    match tag(line) {
        SET_VALUE => {
            let end = member_rows(line, numbers, log);
            make_set(rows, log, 0, end)
        }
        RECORD_VALUE => {
            let end = field_words(line, numbers, log);
            make(rows, cut(log, 0, end))
        }
        _ => make(rows, line),
    }
}

// All values that the run over `kept` made become values of `rows`, in the order of making; their numbers there are noted in `numbers`.
pub fn carry(kept: &[u32], rows: &mut [u32], log: &mut [u32], numbers: &mut [u32])
    requires { 16384 ≤ length log.old }
    ensures { Carried (carried_of kept.now rows.old numbers.old) rows.new numbers.new }
{
    let given = count(kept, VALUE);
    let most = count(kept, MADE);
    for i in 0..most {
        let noted = Numbers {
            given,
            noted: numbers,
        };
        let number = carry_one(row(kept, MADE, i), &noted, rows, log);
        put(numbers, i as usize, number);
    }
}
