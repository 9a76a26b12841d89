// The residuals, printed as the sheet's nodes are: a line for each row of the log, in order. A row's number is its place among the rows.
ghost use Rattle.std.specs.Prelude.{◌≡◌, ◌∷◌, ◌+◌, ◌-◌, length, get_or, drop};
ghost use Rattle.table.specs.Layout.{rows_of};
ghost use Rattle.print.specs.Out.{Prints};
ghost use Rattle.sheet.specs.Bytes.{digits};
ghost use Rattle.sheet.specs.Forms.{tag, line_or, TEXT, NODE, asterisk};
ghost use Rattle.sheet.specs.Answer.{numbers, item_out, concat};
ghost use Rattle.listing.specs.Values.{after};
ghost use Rattle.listing.specs.Nodes.{number_of, children_to, fields_to, letter, pieces, rest_items, left_items, left_said, left_at, said_at, node_line, log_lines};

use crate::names::{op_name, part_name};
use crate::number_after;
use crate::values::{entry, numbers};
use forms::{GET, HAS, HASPATH, IS, LIKE, MARK, NODE, RECORD_OF, VAR};
use print::Out;
use residual::{LEFT_ROW, ROW, ROW_TYPE, SOURCE, Stage, WHAT, stage_at, start_at, word_at};
use table::{item, row, tag};
use words::cut;

// A node that is left: its row, how many steps of its path were taken, and the log, in which its children's blocks lie from `start` to `end`.
#[derive(Clone, Copy)]
struct Left<'a> {
    line: &'a [u32],
    passed: u32,
    log: &'a [u32],
    start: usize,
    end: usize,
}

// The number of the row that ends at `end`.
fn number_of(end: usize) -> u64
    ensures { result ≡ number_of end }
{
    (end.saturating_sub(ROW) / ROW) as u64
}

// The numbers of the blocks from `start` to `end`, left to right, each after a comma.
fn children(out: &mut Out, log: &[u32], start: usize, end: usize)
    ensures { Prints out.old (after (numbers (children_to log.now start end))) out.new }
{
    if end <= start {
        return;
    }
    let q = start_at(log, end);
    children(out, log, start, q);
    number_after(out, b',', number_of(end));
}

// The same with a text before each number: `i` words of the record's row are left, the last two for the last block.
fn fields(out: &mut Out, line: &[u32], i: usize, log: &[u32], start: usize, end: usize)
    ensures { Prints out.old (after (numbers (fields_to line.now i log.now start end))) out.new }
{
    if i < 2 {
        return;
    }
    if end <= start {
        return;
    }
    fields(out, line, i - 2, log, start, start_at(log, end));
    entry(out, item(line, i - 2), number_of(end));
}

// A variable after a comma.
fn variable(out: &mut Out, part: u32)
    ensures { Prints out.old (44 ∷ letter part) out.new }
{
    out.bytes(part_name(part));
}

// An item of a pattern after a comma.
fn piece(out: &mut Out, text: u32)
    ensures { Prints out.old (44 ∷ item_out (line_or asterisk TEXT) text) out.new }
{
    if text == MARK {
        out.bytes(b",*");
        return;
    }
    number_after(out, b',', text as u64);
}

// A pattern, each item after a comma.
fn pattern(out: &mut Out, words: &[u32])
    ensures { Prints out.old (after (pieces words.now)) out.new }
{
    for &text in words {
        piece(out, text);
    }
}

// The texts of a path of which `passed` were taken, at least one, each after a comma.
fn steps(out: &mut Out, line: &[u32], passed: u32)
    ensures { Prints out.old (after (digits (get_or line.now (3 + passed) 0) ∷ numbers (drop (4 + passed) line.now))) out.new }
{
    let i = passed as usize + 3;
    number_after(out, b',', item(line, i) as u64);
    numbers(out, cut(line, i + 1, line.len()));
}

// The kind or text after a node's child, after a comma.
fn second(out: &mut Out, line: &[u32])
    ensures { Prints out.old (44 ∷ digits (get_or line.now 3 0)) out.new }
{
    number_after(out, b',', item(line, 3) as u64);
}

// What the row `line` of a node says after its children, each item after a comma.
fn rest_items(out: &mut Out, line: &[u32], passed: u32)
    ensures { Prints out.old (after (rest_items (tag line.now) line.now passed)) out.new }
{
    match tag(line) {
        IS | GET | HAS => second(out, line),
        LIKE => pattern(out, cut(line, 3, line.len())),
        HASPATH => steps(out, line, passed),
        _ => {}
    }
}

// What stands after the name of the node.
fn left_items(out: &mut Out, left: &Left)
    ensures { Prints out.old (after (left_items (tag left.now.line.now) left.now.line.now left.now.passed (children_to left.now.log.now left.now.start left.now.end) (fields_to left.now.line.now (length left.now.line.now) left.now.log.now left.now.start left.now.end))) out.new }
{
    let line = left.line;
    match tag(line) {
        VAR => variable(out, item(line, 2)),
        RECORD_OF => fields(out, line, line.len(), left.log, left.start, left.end),
        _ => {
            children(out, left.log, left.start, left.end);
            rest_items(out, line, left.passed);
        }
    }
}

// A node that is left, after a comma.
fn left_said(out: &mut Out, left: &Left)
    ensures { Prints out.old (after (left_said left.now.line.now left.now.passed left.now.log.now left.now.start left.now.end)) out.new }
{
    out.byte(b',');
    out.bytes(op_name(tag(left.line)));
    left_items(out, left);
}

// The node of the row that ends at `end`, after a comma.
fn left_at(out: &mut Out, rows: &[u32], log: &[u32], end: usize)
    ensures { Prints out.old (after (left_at (rows_of rows.now NODE) log.now end)) out.new }
{
    let left = Left {
        line: row(rows, NODE, word_at(log, end, SOURCE)),
        passed: word_at(log, end, WHAT).saturating_sub(LEFT_ROW),
        log,
        start: start_at(log, end),
        end: end.saturating_sub(ROW),
    };
    left_said(out, &left);
}

// What stands after the type of the row that ends at `end`, after a comma.
fn said_at(out: &mut Out, rows: &[u32], log: &[u32], end: usize)
    ensures { Prints out.old (after (said_at (rows_of rows.now NODE) log.now end)) out.new }
{
    match stage_at(log, end) {
        Stage::Value(v) => {
            out.bytes(b",lit");
            number_after(out, b',', v as u64);
        }
        Stage::Error => out.bytes(b",err"),
        Stage::Open => left_at(out, rows, log, end),
    }
}

// The line of the row that ends at `end`.
fn node_line(out: &mut Out, rows: &[u32], log: &[u32], end: usize)
    ensures { Prints out.old (node_line (rows_of rows.now NODE) log.now end) out.new }
{
    out.bytes(b"node");
    number_after(out, b'=', word_at(log, end, ROW_TYPE) as u64);
    said_at(out, rows, log, end);
    out.byte(b'\n');
}

// The lines of all rows.
pub fn node_lines(out: &mut Out, rows: &[u32], log: &[u32])
    ensures { Prints out.old (concat (log_lines (rows_of rows.now NODE) log.now)) out.new }
{
    for i in 0..log.len() / ROW {
        node_line(out, rows, log, ROW * i + ROW);
    }
}
