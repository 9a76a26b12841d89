// What the residuals of a partial run yield on a complete sheet. Their rows stand children first, so each takes what its children
// yielded off a stack and leaves what it yields itself: no row is read twice, and nothing recurs.
// A yield on the stack is a row of a value or of an error; its last word says how many words its residual has.
#![tactic(auto)]

ghost use Rattle.std.specs.Prelude.{◌≡◌, [], ◌+◌, ◌-◌, ◌*◌, ◌/◌, ◌≤◌, ◌<◌, get_or, take, length};
ghost use Rattle.words.specs.Log.{Room, Holds, Appended};
ghost use Rattle.sheet.specs.Forms.{VALUE};
ghost use Rattle.forms.specs.Tags.{EQ, IF, IS, SET_OF};
ghost use Rattle.evaluator.specs.Gave.{Gave, GaveBeside, Done};
ghost use Rattle.yielding.specs.Yields.{yield_in, yield_row, Started, lazy_of, logic_of, branch_of, one_of, two_of, set_of, record_of, over_of, node_of, turn_of, ran_of, Turned, classes_in, yielded_of};

use carried::{Numbers, carry};
use evaluator::operands::{path_at, word_of};
use evaluator::{
    EvalError, Yield, apply_one, apply_two, class_of, only_bool, request, settle, truth_of,
};
use forms::{AND, EQ, HASPATH, IF, IS, NODE, OR, RECORD_OF, SET_OF, VALUE, VAR};
use residual::{
    ERROR_ROW, LEFT_ROW, ROW, ROW_TYPE, SOURCE, VALUE_ROW, WHAT, WORDS, push_error, push_value,
};
use table::{count, row, tag};
use value::making::{make_record, make_set};
use valued::all_values;
use words::{cut, read};

// No value is known to be no bool here: a search for a bool begins with the first value.
const FIRST: usize = 0;

// What the row of the stack at `at` of these words yields.
fn yield_in(words: &[u32], at: usize) -> Yield
    requires { at ≤ 65536 }
    ensures { result ≡ yield_in words.now at }
{
    if read(words, at) == VALUE_ROW {
        return Ok(read(words, at + SOURCE));
    }
    Err(EvalError)
}

// A yield at the end of the stack, of a residual of so many words.
fn push_yield(log: &mut [u32], top: usize, yielded: Yield, words: u32) -> usize
    ensures { Appended log.old top (yield_row yielded words) log.new result }
{
    match yielded {
        Ok(value) => push_value(log, top, value, words),
        Err(_) => push_error(log, top, words),
    }
}

// Where the rows of the stack begin whose residuals have so many words together.
fn start_in(stack: &[u32], words: u32) -> usize
    ensures { Started stack.now words result }
{
    let mut left = words;
    for n in (0..stack.len() / ROW).rev() {
        if left == 0 {
            return ROW * (n + 1);
        }
        left = left.saturating_sub(stack[ROW * n + ROW_TYPE]);
    }
    0
}

// `and` or `or` over its yields: `stop` is the bool that decides.
fn lazy(rows: &[u32], left: Yield, right: Yield, stop: bool) -> Yield
    ensures { result ≡ lazy_of stop rows.now left right }
{
    let x = truth_of(rows, left).ok_or(EvalError)?;
    if x == stop {
        return left;
    }
    only_bool(rows, right)
}

// `if` over its yields.
fn branch(rows: &[u32], test: Yield, then: Yield, other: Yield) -> Yield
    ensures { result ≡ branch_of rows.now test then other }
{
    let x = truth_of(rows, test).ok_or(EvalError)?;
    if x { then } else { other }
}

// An operation with one operand; of a `haspath` so many steps are taken.
fn one(sheet: &[u8], rows: &mut [u32], node: u32, tag: u32, steps: u32, operand: Yield) -> Yield
    requires { (IS ≤ tag) × (tag < SET_OF) }
    ensures { Gave (one_of sheet.now tag steps rows.old node operand) rows.new result }
{
    let value = operand?;
    if tag == HASPATH {
        let line = row(rows, NODE, node);
        let given = path_at(rows, cut(line, steps as usize, line.len()), value);
        return settle(FIRST, rows, given);
    }
    apply_one(sheet, FIRST, rows, node, tag, value)
}

// An operation with two operands.
fn two(rows: &mut [u32], tag: u32, left: Yield, right: Yield) -> Yield
    requires { (EQ ≤ tag) × (tag < IF) }
    ensures { Gave (two_of tag rows.old left right) rows.new result }
{
    let first = left?;
    let second = right?;
    apply_two(FIRST, rows, tag, first, second)
}

// `and` and `or`, by the tag.
// kept: the tag is a word of the sheet, and each arm does another thing with the same operands, so that closures would be no plainer.
fn logic(rows: &[u32], tag: u32, left: Yield, right: Yield) -> Yield
    ensures { result ≡ logic_of tag rows.now left right }
{
    match tag {
        AND => lazy(rows, left, right, false),
        OR => lazy(rows, left, right, true),
        _ => Err(EvalError),
    }
}

// A node over the rows of its operands, by its tag.
fn over(sheet: &[u8], rows: &mut [u32], node: u32, tag: u32, steps: u32, operands: &[u32]) -> Yield
    ensures { Gave (over_of sheet.now tag steps rows.old node operands.now) rows.new result }
{
    let left = yield_in(operands, 0);
    let right = yield_in(operands, ROW);
    if tag < EQ {
        return logic(rows, tag, left, right);
    }
    if tag < IF {
        return two(rows, tag, left, right);
    }
    if tag < IS {
        return branch(rows, left, right, yield_in(operands, ROW + ROW));
    }
    if tag < SET_OF {
        return one(sheet, rows, node, tag, steps, left);
    }
    Err(EvalError)
}

// A set of the values of the rows from `start` to the end of the stack.
fn set(rows: &mut [u32], log: &mut [u32], start: usize, top: usize) -> Yield
    requires { Room log.old top }
    ensures { GaveBeside (set_of rows.old (take top log.old) start) rows.new result top log.old log.new }
{
    if all_values(cut(log, start, top)) {
        return Ok(make_set(rows, log, start, top));
    }
    Err(EvalError)
}

// A record likewise, with the texts of the node.
fn record(rows: &mut [u32], log: &mut [u32], start: usize, top: usize, node: u32) -> Yield
    requires room { Room log.old top }
    requires start_le_top { start ≤ top }
    ensures { GaveBeside (record_of rows.old (take top log.old) start node) rows.new result top log.old log.new }
{
    if all_values(cut(log, start, top)) {
        return Ok(make_record(rows, log, start, top, node));
    }
    Err(EvalError)
}

// The node over the rows of its operands, from `start` to the end of the stack; of a `haspath` so many steps are taken.
fn left(
    sheet: &[u8],
    rows: &mut [u32],
    log: &mut [u32],
    start: usize,
    top: usize,
    node: u32,
    steps: u32,
) -> Yield
    requires room { Room log.old top }
    requires start_le_top { start ≤ top }
    ensures { GaveBeside (node_of sheet.now rows.old (take top log.old) start node steps) rows.new result top log.old log.new }
{
    let tag = tag(row(rows, NODE, node));
    match tag {
        VAR => request(rows, word_of(rows, node, 2)),
        SET_OF => set(rows, log, start, top),
        RECORD_OF => record(rows, log, start, top, node),
        _ => over(sheet, rows, node, tag, steps, cut(log, start, top)),
    }
}

// One row of the residuals. The end of the stack after it.
// kept: the log and the end of its stack are two parameters, since a row's operands are cut off at an earlier end while the run holds the whole.
fn turn(
    sheet: &[u8],
    numbers: &Numbers,
    rows: &mut [u32],
    log: &mut [u32],
    top: usize,
    row: &[u32; ROW],
) -> usize
    requires { Room log.old top }
    ensures { Turned (turn_of sheet.now numbers.now.given numbers.now.noted.now (get_or row.now WHAT 0) (get_or row.now SOURCE 0) (get_or row.now WORDS 0) rows.old (take top log.old)) rows.new log.new result }
{
    let source = row[SOURCE];
    let words = row[WORDS];
    match row[WHAT] {
        VALUE_ROW => push_value(log, top, numbers.there(source), words),
        ERROR_ROW => push_error(log, top, words),
        what => {
            let start = start_in(cut(log, 0, top), words.saturating_sub(ROW as u32));
            let yielded = left(sheet, rows, log, start, top, source, what - LEFT_ROW);
            push_yield(log, start, yielded, words)
        }
    }
}

// All rows of the residuals in turn, on an empty stack; where it then ends.
pub fn run(
    sheet: &[u8],
    residuals: &[u32],
    numbers: &Numbers,
    rows: &mut [u32],
    log: &mut [u32],
) -> usize
    requires { 16384 ≤ length log.old }
    ensures { Turned (ran_of sheet.now numbers.now.given numbers.now.noted.now residuals.now rows.old []) rows.new log.new result }
{
    let (lines, _) = residuals.as_chunks::<ROW>();
    let mut top = 0;
    for row in lines {
        top = turn(sheet, numbers, rows, log, top, row);
    }
    top
}

// The numbers of the classes of the yields on the stack, in its place; how many there are.
// kept: the rows are read by their places, since the same words are written while they are read.
fn classes(rows: &[u32], log: &mut [u32], top: usize) -> usize
    requires { Room log.old top }
    ensures { Holds 0 log.new result (classes_in rows.now (take top log.old)) }
{
    let most = top / ROW;
    for i in 0..most {
        log[i] = class_of(rows, yield_in(log, ROW * i)).into();
    }
    most
}

// The residuals of the run over `kept` on the sheet that `rows` hold: `log` begins with the numbers of the policies' classes; how many
// there are. The numbers that the made values have among those of `rows` are noted in `numbers`.
pub fn yielded(
    sheet: &[u8],
    residuals: &[u32],
    kept: &[u32],
    rows: &mut [u32],
    log: &mut [u32],
    numbers: &mut [u32],
) -> usize
    requires { 16384 ≤ length log.old }
    ensures { Done (yielded_of sheet.now residuals.now kept.now rows.old numbers.old) rows.new log.new result }
{
    carry(kept, rows, log, numbers);
    let there = Numbers {
        given: count(kept, VALUE),
        noted: numbers,
    };
    let top = run(sheet, residuals, &there, rows, log);
    classes(rows, log, top)
}
