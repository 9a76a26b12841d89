// Residuals as a stack of rows in a log: children before their node, so that a block of words is a tree. A row is four words: what it
// is, its source, the words of the block that it ends, and its type.
#![tactic(auto)]

ghost use Rattle.std.specs.Prelude.{◌≡◌, [], ◌∷◌, ◌+◌, ◌-◌, ◌≤◌, ◌<◌, length};
ghost use Rattle.words.specs.Log.{Appended, Room};
ghost use Rattle.sheet.specs.Forms.{NODE};
ghost use Rattle.table.specs.Layout.{rows_of};
ghost use Rattle.residual.specs.Rows.{ROW, lit_row, err_row, left_row, word_at, stage_at, start_at};
ghost use Rattle.residual.specs.Errs.{op_errs_def, blocks_err, errs_by, errs};

use forms::{ADD, ERR, GET, GETTAG, MUL, NEG, NODE, SUB};
use table::{row, tag};
use words::{ROOM, read};

// The words of a row, and the place of each.
pub const ROW: usize = 4;

pub const WHAT: usize = 0;

pub const SOURCE: usize = 1;

pub const WORDS: usize = 2;

pub const ROW_TYPE: usize = 3;

// kept: they stand in a row's first word, which counts the steps of a path besides.
// What a row is: a value, whose number is the source; an error; a node left as it is, whose children are the blocks before it. With k
// steps of a `haspath` taken it is `LEFT_ROW` + k.
pub const VALUE_ROW: u32 = 0;

pub const ERROR_ROW: u32 = 1;

pub const LEFT_ROW: u32 = 2;

// kept: they stand in words, where those who read a run's answer compare them.
// What a policy is found to be, as a number.
pub const CLASS_TRUE: u32 = 0;

pub const CLASS_FALSE: u32 = 1;

pub const CLASS_ERROR: u32 = 2;

pub const CLASS_OPEN: u32 = 3;

// How far a residual is worked.
#[derive(Clone, Copy)]
pub enum Stage {
    Value(u32),
    Error,
    Open,
}

// A row more, if there is room for it.
#[tactic(auto, using(crate::proofs::Pushes::row_in), unfolding(words::specs::Log::has_room))]
fn push_row(log: &mut [u32], top: usize, what: u32, source: u32, words: u32, ty: u32) -> usize
    ensures { Appended log.old top (what ∷ source ∷ words ∷ ty ∷ []) log.new result }
{
    if top > ROOM - ROW || top + ROW > log.len() {
        return top;
    }
    log[top..top + ROW].copy_from_slice(&[what, source, words, ty]);
    top + ROW
}

// A value of type `ty` more.
pub fn push_value(log: &mut [u32], top: usize, value: u32, ty: u32) -> usize
    ensures { Appended log.old top (lit_row value ty) log.new result }
{
    push_row(log, top, VALUE_ROW, value, ROW as u32, ty)
}

// An error of type `ty` more.
pub fn push_error(log: &mut [u32], top: usize, ty: u32) -> usize
    ensures { Appended log.old top (err_row ty) log.new result }
{
    push_row(log, top, ERROR_ROW, 0, ROW as u32, ty)
}

// Node `node` of type `ty` over the blocks from `start` on, with `steps` steps taken.
pub fn push_left(log: &mut [u32], start: usize, top: usize, node: u32, steps: u32, ty: u32) -> usize
    requires { (start ≤ top) × (top ≤ 16384) × (steps < 4294967294) }
    ensures { Appended log.old top (left_row node steps (top - start) ty) log.new result }
{
    push_row(
        log,
        top,
        LEFT_ROW + steps,
        node,
        (top - start + ROW) as u32,
        ty,
    )
}

// A log of residuals: the first `top` words of a lent slice, which has room for 16,384.
#[derive(Drop)]
pub struct Log<'a> {
    pub words: &'a mut [u32],
    pub top: usize,
    ghost room: { Room words.now top },
}

impl<'a> Log<'a> {
    ghost use Rattle.residual.specs.Logs.{Pushed, Cut};

    // An empty log.
    pub fn new(words: &'a mut [u32]) -> Log<'a>
        requires { 16384 ≤ length words.old }
        ensures same { result.words.ghost_name ≡ words.entry.ghost_name }
        ensures words { result.words.now ≡ words.old }
        ensures top { result.top ≡ 0 }
    {
        Log { words, top: 0 }
    }

    // How far the block that ends at `end` is worked.
    pub fn stage_at(&self, end: usize) -> Stage
        ensures { result ≡ stage_at self.now.words.now end }
    {
        stage_at(self.words, end)
    }

    // How far the last block is worked.
    pub fn stage(&self) -> Stage
        ensures { result ≡ stage_at self.now.words.now self.now.top }
    {
        self.stage_at(self.top)
    }

    // The type of the block that ends at `end`.
    pub fn type_at(&self, end: usize) -> u32
        ensures { result ≡ word_at self.now.words.now end 3 }
    {
        word_at(self.words, end, ROW_TYPE)
    }

    // Whether the block that ends at `end` can err.
    pub fn can_error(&self, rows: &[u32], end: usize) -> bool
        ensures { result ≡ errs (rows_of rows.now NODE) self.now.words.now end }
    {
        can_error_assuming_well_formed(rows, self.words, end)
    }

    // The blocks from `start` on go.
    pub fn cut(&mut self, start: usize)
        requires { start ≤ self.old.top }
        ensures { Cut self.old start self.new }
    {
        self.top = start;
    }

    // A value of type `ty` in the place of the blocks from `start` on.
    pub fn push_value(&mut self, start: usize, value: u32, ty: u32)
        requires { start ≤ self.old.top }
        ensures { Pushed self.old start (lit_row value ty) self.new }
    {
        self.top = push_value(self.words, start, value, ty);
    }

    // An error of type `ty` in their place.
    pub fn push_error(&mut self, start: usize, ty: u32)
        requires { start ≤ self.old.top }
        ensures { Pushed self.old start (err_row ty) self.new }
    {
        self.top = push_error(self.words, start, ty);
    }

    // Node `node` of type `ty` over them, with `steps` steps taken.
    pub fn push_left(&mut self, start: usize, node: u32, steps: u32, ty: u32)
        requires { (start ≤ self.old.top) × (steps < 4294967294) }
        ensures { Pushed self.old self.old.top (left_row node steps (self.old.top - start) ty) self.new }
    {
        self.top = push_left(self.words, start, self.top, node, steps, ty);
    }
}

// Word `place` of the row that ends at `end`.
#[tactic(auto, unfolding(crate::specs::Rows::word_at))]
pub fn word_at(log: &[u32], end: usize, place: usize) -> u32
    requires { place < ROW }
    ensures { result ≡ word_at log.now end place }
{
    if end < ROW {
        return 0;
    }
    read(log, end - ROW + place)
}

// How far the block that ends at `end` is worked.
#[tactic(auto, unfolding(crate::specs::Rows::stage_at))]
pub fn stage_at(log: &[u32], end: usize) -> Stage
    ensures { result ≡ stage_at log.now end }
{
    let t = word_at(log, end, WHAT);
    let x = word_at(log, end, SOURCE);
    match t {
        VALUE_ROW => Stage::Value(x),
        ERROR_ROW => Stage::Error,
        _ => Stage::Open,
    }
}

// Where the block that ends at `end` begins; a block has at least one row.
#[tactic(auto, unfolding(crate::specs::Rows::start_at))]
pub fn start_at(log: &[u32], end: usize) -> usize
    ensures { result ≡ start_at log.now end }
{
    end.saturating_sub(ROW.max(word_at(log, end, WORDS) as usize))
}

// Whether an operation can err by itself.
#[tactic(auto, unfolding(crate::specs::Errs::op_errs_def))]
pub fn op_errs(tag: u32) -> bool
    ensures { result ≡ op_errs_def tag }
{
    matches!(tag, ERR | ADD | SUB | MUL | GETTAG | GET | NEG)
}

// Whether one of the blocks from `start` to `end` can err.
#[cycle(any_error_can_error)]
#[tactic(auto, using(crate::proofs::Steps::blocks_none, crate::proofs::Steps::blocks_step), unfolding(crate::specs::Rows::start_at))]
fn any_error(rows: &[u32], log: &[u32], start: usize, end: usize, depth: u32) -> bool
    ensures { result ≡ blocks_err (errs_by (rows_of rows.now NODE) log.now depth) log.now start end }
{
    let mut p = end;
    while p > start {
        if can_error(rows, log, p, depth) {
            return true;
        }
        p = start_at(log, p);
    }
    false
}

// Whether the block that ends at `end` can err; `depth` levels of rows are looked at.
#[cycle(any_error_can_error)]
#[tactic(auto, unfolding(crate::specs::Errs::errs_by, crate::specs::Errs::row_errs))]
pub fn can_error(rows: &[u32], log: &[u32], end: usize, depth: u32) -> bool
    ensures { result ≡ errs_by (rows_of rows.now NODE) log.now depth end }
{
    if depth == 0 {
        return false;
    }
    let t = word_at(log, end, WHAT);
    if t == VALUE_ROW {
        return false;
    }
    if t == ERROR_ROW {
        return true;
    }
    if op_errs(tag(row(rows, NODE, word_at(log, end, SOURCE)))) {
        return true;
    }
    if end < ROW {
        return false;
    }
    any_error(rows, log, start_at(log, end), end - ROW, depth - 1)
}

// Whether the block that ends at `end` can err: no tree is deeper than 64.
#[tactic(auto, unfolding(crate::specs::Errs::errs))]
pub fn can_error_assuming_well_formed(rows: &[u32], log: &[u32], end: usize) -> bool
    ensures { result ≡ errs (rows_of rows.now NODE) log.now end }
{
    can_error(rows, log, end, 64)
}
