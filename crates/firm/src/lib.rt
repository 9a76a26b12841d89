// A whole firm in one call: for each of a list of rows, whose two texts stand for those of principal and resource, the decision on a partial sheet.
// The sheet is read once; each row is run over a copy of its words on the stack, some 64 KB that all rows share, which have the row's texts.
#![tactic(auto)]

ghost use Rattle.std.specs.Prelude.{◌≡◌, ◌*◌, ◌/◌, ◌≤◌, ◌<◌, length};
ghost use Rattle.std.proofs.lemmas.List.Edits.{sets};
ghost use Rattle.sheet.specs.Call.{worked};
ghost use Rattle.response.specs.Verdicts.{decision_of};
ghost use Rattle.firm.specs.Parts.{code_of, joined, Decides, text_in, ask_in, refusal, Begins, check_of, Singles, join_of};
ghost use Rattle.firm.specs.Promise.{Quotes};
ghost use Rattle.firm.specs.Words.{words_of_row, row_from_def, QuotesWords};

use forms::{MARK, PRINCIPAL, RESOURCE, TEXT};
use interpret::CLASSES;
use laid::lay;
use opening::open;
use response::{Decision, Policies};
use table::{count, item, row};
use words::{ROOM, clear, cut, store};

// ---- one row

// The words of a sheet's rows.
fn row_words() -> [u32; ROOM]
    ensures { 16384 ≡ length result }
{
    [0; ROOM]
}

// The decision on the sheet that the words hold, with these texts of principal and resource.
fn decided(
    sheet: &[u8],
    rows: &[u32],
    principal: u32,
    resource: u32,
    log: &mut [u32],
    own: &mut [u32],
) -> Decision
    requires { (16384 ≤ length rows.now) × (length log.old ≡ 16384) × (length own.old ≡ 16384) }
    ensures { Decides sheet.now rows.now principal resource result }
{
    lay(rows, own, principal, resource);
    let end = interpret::run(sheet, own, log);
    interpret::lines(own, log, end);
    let policies = Policies {
        rows: own,
        classes: cut(log, CLASSES, ROOM),
    };
    policies.decision()
}

// ---- rows

// What is asked, the texts of principal and resource by number, and the decision.
#[repr(C)]
#[derive(Clone, Copy)]
pub struct Row {
    pub principal: u32,
    pub resource: u32,
    pub decision: u32,
}

// A decision as a number.
pub const ALLOW: u32 = 0;

pub const DENY: u32 = 1;

pub const OPEN: u32 = 2;

fn number_of(decision: Decision) -> u32
    ensures { result ≡ code_of (decision_of decision) }
{
    match decision {
        Decision::Allow => ALLOW,
        Decision::Deny => DENY,
        Decision::Open => OPEN,
    }
}

// Number and line of a refusal, or 0 and 0; the length, which is always 0; the group's decision.
#[derive(Clone, Copy)]
pub struct Quote {
    pub number: u32,
    pub line: usize,
    pub length: usize,
    pub group: u32,
}

fn refused(number: u32, line: usize) -> Quote
    ensures { result ≡ refusal number line }
{
    Quote {
        number,
        line,
        length: 0,
        group: OPEN,
    }
}

// ---- the parts of the call

// The rows of a call at most.
const MOST_ROWS: usize = 64;

// The sheet opened for so many rows.
fn begin(rows: usize, sheet: &[u8], work1: &mut [u32], work2: &mut [u32]) -> Quote
    ensures { Begins rows sheet.now work1.old work2.old result work1.new work2.new }
{
    if work1.len() < ROOM {
        return refused(1, 0);
    }
    if work2.len() < ROOM {
        return refused(1, 0);
    }
    if sheet.len() > ROOM {
        return refused(2, 0);
    }
    if rows > MOST_ROWS {
        return refused(14, 0);
    }
    if let Err(refusal) = open(sheet, true, &mut work1[..ROOM], &mut work2[..ROOM]) {
        return refused(u32::from(refusal.fault), refusal.line);
    }
    Quote {
        number: 0,
        line: 0,
        length: 0,
        group: ALLOW,
    }
}

// Whether a text exists and does not contradict the one of a key's line.
fn text_fits(rows: &[u32], key: usize, text: u32) -> bool
    ensures { result ≡ text_in rows.now key text }
{
    if text >= count(rows, TEXT) {
        return false;
    }
    let known = item(row(rows, key, 0), 2);
    if known == MARK {
        return true;
    }
    known == text
}

// Whether both texts of a row fit.
fn fits(rows: &[u32], principal: u32, resource: u32) -> bool
    ensures { result ≡ ask_in rows.now principal resource }
{
    if !text_fits(rows, PRINCIPAL, principal) {
        return false;
    }
    text_fits(rows, RESOURCE, resource)
}

// Row `i` checked, where nothing was refused before.
fn check(f: Quote, r: Row, i: usize, work1: &[u32]) -> Quote
    ensures { result ≡ check_of work1.now f r i }
{
    if f.number != 0 {
        return f;
    }
    if fits(cut(work1, 0, ROOM), r.principal, r.resource) {
        return f;
    }
    refused(15, i)
}

// A row decided, where nothing was refused.
fn single(f: Quote, r: Row, sheet: &[u8], work1: &[u32], work2: &mut [u32], own: &mut [u32]) -> Row
    requires { length own.old ≡ 16384 }
    ensures { Singles sheet.now work1.now work2.old f r result work2.new }
{
    if f.number != 0 {
        return r;
    }
    if work1.len() < ROOM {
        return r;
    }
    if work2.len() < ROOM {
        return r;
    }
    let d = decided(
        sheet,
        &work1[..ROOM],
        r.principal,
        r.resource,
        &mut work2[..ROOM],
        own,
    );
    Row {
        principal: r.principal,
        resource: r.resource,
        decision: number_of(d),
    }
}

// The group's decision with a row's more: deny if any row denies, else open if any is open.
fn join_group(group: u32, decision: u32) -> u32
    ensures { result ≡ joined group decision }
{
    if decision == ALLOW {
        return group;
    }
    if group == DENY {
        return DENY;
    }
    decision
}

// A row joins the group, where nothing was refused.
fn join(f: Quote, r: Row) -> Quote
    ensures { result ≡ join_of f r }
{
    if f.number != 0 {
        return f;
    }
    Quote {
        number: f.number,
        line: f.line,
        length: f.length,
        group: join_group(f.group, r.decision),
    }
}

// What was used of the work slices is cleared.
fn finish(f: Quote, work1: &mut [u32], work2: &mut [u32]) -> Quote
    ensures is { result ≡ f }
    ensures first { work1.new ≡ worked work1.old (length work2.old) }
    ensures second { work2.new ≡ worked work2.old (length work1.old) }
{
    if work1.len() < ROOM {
        return f;
    }
    if work2.len() < ROOM {
        return f;
    }
    clear(work1);
    clear(work2);
    f
}

// ---- the call

// For each row the decision on the sheet with its two texts filled in, and the group's decision; where the call is refused no row changes.
pub fn firm(rows: &mut [Row], sheet: &[u8], work1: &mut [u32], work2: &mut [u32]) -> Quote
    ensures { Quotes sheet.now rows.old work1.old work2.old result rows.new work1.new work2.new }
{
    let n = rows.len();
    let mut f = begin(n, sheet, work1, work2);
    for i in 0..n {
        f = check(f, rows[i], i, work1);
    }
    let mut own = row_words();
    for j in 0..n {
        let r = single(f, rows[j], sheet, work1, work2, &mut own);
        f = join(f, r);
        rows[j] = r;
    }
    finish(f, work1, work2)
}

// ---- the same call over plain words, three to a row, for callers that have no row structs

// The words of a row: principal, resource, decision.
pub const ROW: usize = 3;

// Row `i` of the words.
fn row_from(words: &[u32], i: usize) -> Row
    requires { i < length words.now / 3 }
    ensures { result ≡ row_from_def words.now i }
{
    let at = i * ROW;
    Row {
        principal: words[at],
        resource: words[at + 1],
        decision: words[at + 2],
    }
}

// Another row in the place of row `i`.
fn put_row(words: &mut [u32], i: usize, r: Row)
    requires { i < length words.old / 3 }
    ensures { words.new ≡ sets words.old (i * 3) (words_of_row r) }
{
    let row = [r.principal, r.resource, r.decision];
    store(words, i * ROW, &row);
}

// `firm` for the rows that the words are; one or two words at the end stay as they are.
pub fn firm_in_words(words: &mut [u32], sheet: &[u8], work1: &mut [u32], work2: &mut [u32]) -> Quote
    ensures { QuotesWords sheet.now words.old work1.old work2.old result words.new work1.new work2.new }
{
    let n = words.len() / ROW;
    let mut f = begin(n, sheet, work1, work2);
    for i in 0..n {
        f = check(f, row_from(words, i), i, work1);
    }
    let mut own = row_words();
    for j in 0..n {
        let r = single(f, row_from(words, j), sheet, work1, work2, &mut own);
        f = join(f, r);
        put_row(words, j, r);
    }
    finish(f, work1, work2)
}
