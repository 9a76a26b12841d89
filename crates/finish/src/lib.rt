// Finish an application: the answer that the residuals of a partial sheet give on a complete sheet that agrees with it. The partial sheet's
// rows and the log are in the lent work slices; the residuals, the complete sheet's rows and the numbers that made values have there are on
// the stack: some 84 KB.
#![tactic(auto)]

ghost use Rattle.std.specs.Prelude.{◌≡◌, ◌≤◌, length};
ghost use Rattle.finished.specs.Promise.{Finished};
ghost use Rattle.finish.specs.Parts.{after_both, after_partial, after_lengths, Answers, Completes, Left, Leaving, Finishes};

use agree::breaking_line;
use authorizer::Returned;
use opening::open;
use sent::send_complete;
use words::{ROOM, append, clear, cut};
use yielding::yielded;

// The words of a sheet's rows.
fn row_words() -> [u32; 16384]
    ensures { 16384 ≡ length result }
{
    [0; 16384]
}

// The words of all residuals: four for each use of a node.
fn residual_words() -> [u32; 4096]
    ensures { 4096 ≡ length result }
{
    [0; 4096]
}

// A word for each value that a run may make.
fn number_words() -> [u32; 1024]
    ensures { 1024 ≡ length result }
{
    [0; 1024]
}

// What the residuals yield on a complete sheet that agrees, answered. The words `kept` are those that the partial run left, `rows` hold the
// complete sheet.
fn finished(
    complete: &[u8],
    residuals: &[u32],
    kept: &[u32],
    rows: &mut [u32],
    log: &mut [u32],
    out: &mut [u8],
) -> Returned
    requires { 16384 ≤ length log.old }
    ensures { Finishes complete.now residuals.now kept.now rows.old log.old out.old result.number result.line result.length out.new }
{
    let mut numbers = number_words();
    let n = yielded(complete, residuals, kept, rows, log, &mut numbers);
    let s = send_complete(out, kept, cut(log, 0, n));
    Returned {
        number: s.number,
        line: 0,
        length: s.length,
    }
}

// 11 where the sheets do not agree, otherwise that answer.
fn agreed(
    partial: &[u8],
    complete: &[u8],
    residuals: &[u32],
    kept: &[u32],
    rows: &mut [u32],
    log: &mut [u32],
    out: &mut [u8],
) -> Returned
    requires in_bounds { 16384 ≤ length log.old }
    requires left { Left partial.now residuals.now kept.now }
    requires completes { Completes complete.now rows.old log.old }
    ensures { Answers (after_both (length out.old) partial.now complete.now) partial.now complete.now out.old result.number result.line result.length out.new }
{
    let line = breaking_line(partial, kept, complete, rows);
    if line != 0 {
        return Returned {
            number: 11,
            line,
            length: 0,
        };
    }
    finished(complete, residuals, kept, rows, log, out)
}

// The complete sheet's own checks, then the two sheets together.
fn completed(
    partial: &[u8],
    complete: &[u8],
    residuals: &[u32],
    kept: &[u32],
    log: &mut [u32],
    out: &mut [u8],
) -> Returned
    requires in_bounds { 16384 ≤ length log.old }
    requires left { Left partial.now residuals.now kept.now }
    ensures { Answers (after_partial (length out.old) partial.now complete.now) partial.now complete.now out.old result.number result.line result.length out.new }
{
    let mut rows = row_words();
    if let Err(refusal) = open(complete, false, &mut rows, log) {
        return Returned {
            number: refusal.fault.into(),
            line: refusal.line,
            length: 0,
        };
    }
    agreed(partial, complete, residuals, kept, &mut rows, log, out)
}

// The run of a partial sheet: the rows of its residuals at the start of `residuals`, and how many words they are.
fn leave(partial: &[u8], rows: &mut [u32], log: &mut [u32], residuals: &mut [u32]) -> usize
    requires { (16384 ≤ length rows.old) × (16384 ≤ length log.old) × (4096 ≤ length residuals.old) }
    ensures { Leaving partial.now rows.old log.old rows.new residuals.new result }
{
    let end = interpret::run(partial, rows, log);
    append(residuals, 0, cut(log, 0, end))
}

// The partial sheet's own checks, its run, then the complete sheet, in work slices that are long enough.
fn answered(
    partial: &[u8],
    complete: &[u8],
    rows: &mut [u32],
    log: &mut [u32],
    out: &mut [u8],
) -> Returned
    requires { (length rows.old ≡ 16384) × (length log.old ≡ 16384) }
    ensures { Answers (after_lengths (length out.old) partial.now complete.now) partial.now complete.now out.old result.number result.line result.length out.new }
{
    if let Err(refusal) = open(partial, true, rows, log) {
        return Returned {
            number: refusal.fault.into(),
            line: refusal.line,
            length: 0,
        };
    }
    let mut residuals = residual_words();
    let n = leave(partial, rows, log, &mut residuals);
    completed(partial, complete, cut(&residuals, 0, n), rows, log, out)
}

// The finished answer: what was used of the work slices is cleared.
pub fn finish(
    partial: &[u8],
    complete: &[u8],
    work1: &mut [u32],
    work2: &mut [u32],
    out: &mut [u8],
) -> Returned
    ensures { Finished partial.now complete.now work1.old work2.old out.old result.number result.line result.length out.new work1.new work2.new }
{
    if work1.len() < ROOM {
        return Returned {
            number: 1,
            line: 0,
            length: 0,
        };
    }
    if work2.len() < ROOM {
        return Returned {
            number: 1,
            line: 0,
            length: 0,
        };
    }
    let r = answered(
        partial,
        complete,
        &mut work1[..ROOM],
        &mut work2[..ROOM],
        out,
    );
    clear(work1);
    clear(work2);
    r
}
