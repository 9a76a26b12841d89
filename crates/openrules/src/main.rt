// The program: without a word, a sheet on standard input, the answer or its refusal on standard output; with a word, what `help` lists. Of
// what is read the first 16,385 bytes of each sheet matter (proofs/Input.antt). What is proved of it: it is safe, it ends, and the bytes that
// it hands to standard output for the bytes that `streams::read_full` gave are those that `answer`, `finished`, `paged`, `previewed`, `quoted` and
// `loaded` promise. No contract can speak of what the system's read and write move. The status is 0 always: what cannot be done is said on standard
// error.
#![tactic(auto)]

ghost use Rattle.std.specs.Prelude.{◌≡◌, ◌≤◌, ◌<◌, ℕ, List, length};
ghost use Rattle.std.specs.Fn.{FnOnceReturnsAtMut};
ghost use Rattle.print.specs.Written.{Written};
ghost use Rattle.authorizer.specs.Called.{Called};
ghost use Rattle.firm.specs.Parts.{decision_in, rows_in};
ghost use Rattle.firm.specs.Words.{rows_of_words};
ghost use Rattle.wording.specs.Worded.{entry_of, refusal, quote_text};
ghost use Rattle.streams.specs.Filled.{IsPrefixLen};
ghost use Rattle.openrules.specs.Shown.{shown, shown_finished, shown_page, shown_preview, shown_firm, shown_load, Shows};

use authorizer::{Returned, complete, partial};
use finish::finish;
use firm::{ROW, firm_in_words};
use page::page;
use preview::preview;
use print::Out;
use std::env::{Env, FillError};
use std::fs::File;
use std::io::{Error, ErrorKind, Read};
use std::{fs, io, str};
use streams::read_full;
use testload::load;
use wording::{at_most, number_of, says_complete};
use words::ROOM;

// The call of the entry that the sheet's first line names.
fn call(sheet: &[u8], work1: &mut [u32], work2: &mut [u32], out: &mut [u8]) -> Returned
    ensures { Called (entry_of sheet.now) sheet.now work1.old work2.old out.old result.number result.line result.length out.new work1.new work2.new }
{
    if says_complete(sheet) {
        return complete(sheet, work1, work2, out);
    }
    partial(sheet, work1, work2, out)
}

// The bytes of the answer buffer.
const SPACE: usize = 1048576;

// The words of a work slice.
fn words() -> [u32; ROOM]
    ensures { 16384 ≡ length result }
{
    [0; ROOM]
}

// The line of a refusal at the start of a buffer, and its length.
fn refused(buffer: &mut [u8], number: u32, line: usize, length: usize) -> usize
    ensures { Written buffer.old 0 (refusal number line length) buffer.new result }
{
    let mut out = Out::new(buffer);
    wording::refused(&mut out, number, line, length);
    out.len()
}

// The lines of a whole firm's decisions, likewise.
fn quote_lines(buffer: &mut [u8], group: u32, rows: &[u32]) -> usize
    ensures { Written buffer.old 0 (quote_text (decision_in group) (rows_in (rows_of_words rows.now))) buffer.new result }
{
    let mut out = Out::new(buffer);
    wording::quote_lines(&mut out, group, rows);
    out.len()
}

// What is printed for a sheet, at the start of the buffer, and its length.
fn answer(sheet: &[u8], out: &mut [u8; SPACE]) -> usize
    ensures { Shows (shown sheet.now) out.new result }
{
    let mut a = words();
    let mut b = words();
    let r = call(sheet, &mut a, &mut b, out);
    if r.number == 0 {
        return r.length;
    }
    refused(out, r.number, r.line, r.length)
}

// What is printed for a partial and a complete sheet, likewise.
fn finished(partial: &[u8], complete: &[u8], out: &mut [u8; SPACE]) -> usize
    ensures { Shows (shown_finished partial.now complete.now) out.new result }
{
    let mut a = words();
    let mut b = words();
    let f = finish(partial, complete, &mut a, &mut b, out);
    if f.number == 0 {
        return f.length;
    }
    refused(out, f.number, f.line, f.length)
}

// What is printed for the page of a partial sheet, likewise.
fn paged(sheet: &[u8], out: &mut [u8; SPACE]) -> usize
    ensures { Shows (shown_page sheet.now) out.new result }
{
    let mut a = words();
    let mut b = words();
    let p = page(sheet, &mut a, &mut b, out);
    if p.number == 0 {
        return p.length;
    }
    refused(out, p.number, p.line, p.length)
}

// What is printed for a partial sheet with one line replaced, likewise.
fn previewed(sheet: &[u8], line: usize, new: &[u8], out: &mut [u8; SPACE]) -> usize
    ensures { Shows (shown_preview sheet.now line new.now) out.new result }
{
    let mut a = words();
    let mut b = words();
    let p = preview(sheet, line, new, &mut a, &mut b, out);
    if p.number == 0 {
        return p.length;
    }
    refused(out, p.number, p.line, p.length)
}

// What is printed for a partial sheet and rows, likewise.
fn quoted(rows: &mut [u32], sheet: &[u8], out: &mut [u8; SPACE]) -> usize
    ensures { Shows (shown_firm sheet.now (rows_in (rows_of_words rows.old))) out.new result }
{
    let mut a = words();
    let mut b = words();
    let f = firm_in_words(rows, sheet, &mut a, &mut b);
    if f.number != 0 {
        return refused(out, f.number, f.line, f.length);
    }
    quote_lines(out, f.group, rows)
}

// What is printed for a seed and a number of policies, likewise.
fn loaded(seed: u64, policies: u64, out: &mut [u8; SPACE]) -> usize
    ensures { Shows (shown_load seed policies) out.new result }
{
    let n = at_most(policies);
    let l = load(seed, n, out);
    if l.number == 0 {
        return l.length;
    }
    refused(out, l.number, l.line, l.length)
}

// ---- what is read and printed

// The bytes of a sheet that are read: one more than it may have, so that a longer one is seen.
const INPUT: usize = 16385;

// A sheet, in the buffer.
fn sheet_from<'a, R: Read>(from: &mut R, buffer: &'a mut [u8; INPUT]) -> &'a [u8] {
    let n = read_full(from, buffer);
    &buffer[..n]
}

// What a call shows at the start of a buffer, printed.
fn print_shown<C: FnOnce(&mut [u8; SPACE]) -> usize>(rt: &impl Print, show: C)
    requires callable { C.IsAlwaysCallable show }
    requires within { (was : List ℕ) (n : ℕ) (is : List ℕ) → FnOnceReturnsAtMut C.FnOnce show was n is → IsPrefixLen n is }
{
    let mut out = [0u8; SPACE];
    let k = show(&mut out);
    let _ = rt.write_all(&out[..k]);
}

// ---- the words

// The place on the command line of the word that says what to do, and of the name that may follow it; the program's own name is before them.
const WORD: usize = 1;

const NAME: usize = 2;

// The places of the number of a line and of the line for it, which may follow the word instead.
const LINE: usize = 2;

const REPLACEMENT: usize = 3;

// The places of the two numbers that may follow the word instead.
const SEED: usize = 2;

const POLICIES: usize = 3;

// The place of the first row, which may follow the word instead, and how many rows are read: one more than a call may have, so that more are seen.
const FIRST_ROW: usize = 2;

const ROWS: usize = 65;

// The bytes of a word; a longer one is none of the words.
const LETTERS: usize = 16;

// The digits of a number of 64 bits; a longer word is no such number (crate `wording`, proofs/Numbers.antt).
const DIGITS: usize = 20;

// The bytes of two numbers and a comma.
const PAIR: usize = 41;

// The bytes of what may stand at one place on a command line.
const ARGUMENT: usize = 131072;

// The bytes of a file's name.
const PATH: usize = 4096;

// How much of a command line is counted: as much as has the rows that are read.
const COUNTED: usize = 67;

// What stands at place `i` on the command line, in the buffer: nothing where nothing stands there or the buffer has no room.
fn argument<'a>(rt: &impl Env, i: usize, buffer: &'a mut [u8]) -> &'a [u8]
    ensures { IsPrefixLen (length result.now) buffer.old }
{
    let n = rt.arg(i, buffer).unwrap_or(0);
    &buffer[..n]
}

// How many things stand on the command line, the program's own name among them, up to `COUNTED`.
fn argument_count(rt: &impl Env) -> usize
    ensures { result ≤ 67 }
{
    (0..COUNTED)
        .find(|&i| matches!(rt.arg(i, &mut [0; 0]), Err(FillError::NotPresent)))
        .unwrap_or(COUNTED)
}

// The words, on standard output or standard error.
const HELP: &str = "\
openrules < SHEET                    the answer to a sheet
openrules finish PARTIAL < COMPLETE  what the partial sheet's residuals give on the complete sheet
openrules page < SHEET               the counter page of a partial sheet
openrules preview LINE NEW < SHEET   the answer to a partial sheet with the line NEW in the place of line LINE
openrules firm P,R P,R .. < SHEET    the decisions on a partial sheet for rows of a principal text and a resource text, and the group's
openrules load SEED POLICIES         the test load that a seed and 1 to 64 policies name, a sheet
openrules help                       these words
";

// No word: a sheet.
fn print_answer(rt: &(impl Input + Print)) {
    let mut input = [0u8; INPUT];
    let sheet = sheet_from(&mut rt.reader(), &mut input);
    print_shown(rt, |out| answer(sheet, out));
}

// `page`
fn print_page(rt: &(impl Input + Print)) {
    let mut input = [0u8; INPUT];
    let sheet = sheet_from(&mut rt.reader(), &mut input);
    print_shown(rt, |out| paged(sheet, out));
}

// The partial sheet from an open file, the complete one from standard input.
fn print_finished(rt: &(impl Input + Print), file: &mut impl Read) {
    let mut first = [0u8; INPUT];
    let partial = sheet_from(file, &mut first);
    let mut second = [0u8; INPUT];
    let complete = sheet_from(&mut rt.reader(), &mut second);
    print_shown(rt, |out| finished(partial, complete, out));
}

// The file of a name, opened for reading. A name is text in UTF-8 to std.
fn open(rt: &HostRuntime, path: &[u8]) -> io::Result<File> {
    match str::from_utf8(path) {
        Ok(name) => fs::open(rt, name),
        Err(_) => Err(Error::new(ErrorKind::InvalidInput, "a name that is not UTF-8")),
    }
}

// The system's words for an error, without its number for it.
fn without_number(text: &str) -> &str {
    text.split(" (os error ").next().unwrap_or(text)
}

// A line on standard error: what failed, a colon and why.
fn fail(rt: &HostRuntime, what: &[u8], error: Error) {
    let to = rt.stderr();
    let _ = to.write_all(what);
    let _ = to.write_all(b": ");
    if let Ok(text) = format!(in rt.alloc(); "{error}") {
        let _ = to.write_all(without_number(text.as_str()).as_bytes());
    }
    let _ = to.write_all(b"\n");
}

// `finish PARTIAL`
fn finish_word(rt: &HostRuntime) {
    let mut buffer = [0u8; PATH];
    let path = argument(rt, NAME, &mut buffer);
    match open(rt, path) {
        Ok(mut file) => print_finished(rt, &mut file),
        Err(error) => fail(rt, path, error),
    }
}

// Number `i` on the command line.
fn number_at(rt: &impl Env, i: usize) -> Option<u64> {
    number_of(argument(rt, i, &mut [0; DIGITS]))
}

// `preview LINE REPLACEMENT`, on the partial sheet from standard input; nothing where `LINE` is no number.
fn preview_word(rt: &HostRuntime) -> Option<()> {
    let line = number_at(rt, LINE)?;
    let mut buffer = [0u8; ARGUMENT];
    let new = argument(rt, REPLACEMENT, &mut buffer);
    let mut input = [0u8; INPUT];
    let sheet = sheet_from(&mut rt.reader(), &mut input);
    print_shown(rt, |out| previewed(sheet, line as usize, new, out));
    Some(())
}

// Row `i` on the command line as its words, where it is one: two numbers with a comma between them.
fn row_at(rt: &impl Env, i: usize) -> Option<[u32; ROW]>
    requires { i < 65 }
{
    let mut buffer = [0u8; PAIR];
    let pair = argument(rt, FIRST_ROW + i, &mut buffer);
    let comma = pair.iter().position(|&byte| byte == b',')?;
    let principal = number_of(&pair[..comma])?;
    let resource = number_of(&pair[comma + 1..])?;
    Some([at_most(principal), at_most(resource), 0])
}

// `firm P,R P,R ..`, on the partial sheet from standard input; nothing where something there is no row.
fn firm_word(rt: &HostRuntime) -> Option<()> {
    let n = argument_count(rt).saturating_sub(FIRST_ROW).min(ROWS);
    let mut words = [0u32; ROWS * ROW];
    for i in 0..n {
        words[i * ROW..(i + 1) * ROW].copy_from_slice(&row_at(rt, i)?);
    }
    let rows = &mut words[..n * ROW];
    let mut input = [0u8; INPUT];
    let sheet = sheet_from(&mut rt.reader(), &mut input);
    print_shown(rt, |out| quoted(rows, sheet, out));
    Some(())
}

// `load SEED POLICIES`; nothing where one is no number.
fn load_word(rt: &HostRuntime) -> Option<()> {
    let seed = number_at(rt, SEED)?;
    let policies = number_at(rt, POLICIES)?;
    print_shown(rt, |out| loaded(seed, policies, out));
    Some(())
}

// What the command line asks for; nothing where `HELP` does not list it.
fn run(rt: &HostRuntime) -> Option<()> {
    let mut buffer = [0u8; LETTERS];
    let word = argument(rt, WORD, &mut buffer);
    match (word, argument_count(rt)) {
        (b"firm", _) => firm_word(rt)?,
        (_, 0 | 1) => print_answer(rt),
        (b"help", 2) => {
            let _ = rt.write_all(HELP.as_bytes());
        }
        (b"page", 2) => print_page(rt),
        (b"finish", 3) => finish_word(rt),
        (b"preview", 4) => preview_word(rt)?,
        (b"load", 4) => load_word(rt)?,
        _ => return None,
    }
    Some(())
}

fn main(rt: HostRuntime) {
    if run(&rt).is_none() {
        let _ = rt.stderr().write_all(HELP.as_bytes());
    }
}
