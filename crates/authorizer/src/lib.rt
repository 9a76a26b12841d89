// The calls. Each reads a sheet, runs it and prints the answer, in two work slices and a buffer that the caller lends, and asks nothing
// of them: what is too short is refused.
#![tactic(auto)]

ghost use Rattle.std.specs.Prelude.{◌≡◌, length};
ghost use Rattle.sheet.specs.Forms.{partial, complete};
ghost use Rattle.line.specs.Codes.{mode_of};
ghost use Rattle.authorizer.specs.Called.{Called};
ghost use Rattle.authorizer.specs.Parts.{Answers};

use opening::open;
pub use print::Returned;
use sent::{answer_complete, answer_partial};
use words::{ROOM, clear};

// A sheet read, run and answered, in work slices that are long enough.
fn answered(
    sheet: &[u8],
    partial: bool,
    rows: &mut [u32],
    work: &mut [u32],
    out: &mut [u8],
) -> Returned
    requires { (length rows.old ≡ 16384) × (length work.old ≡ 16384) }
    ensures { Answers (mode_of partial) sheet.now out.old result.number result.line result.length out.new }
{
    if let Err(refusal) = open(sheet, partial, rows, work) {
        return Returned {
            number: refusal.fault.into(),
            line: refusal.line,
            length: 0,
        };
    }
    if partial {
        let s = answer_partial(sheet, rows, work, out);
        return Returned {
            number: s.number,
            line: 0,
            length: s.length,
        };
    }
    let s = answer_complete(sheet, rows, work, out);
    Returned {
        number: s.number,
        line: 0,
        length: s.length,
    }
}

// The call: what was used of the work slices is cleared.
fn call(
    sheet: &[u8],
    partial: bool,
    work1: &mut [u32],
    work2: &mut [u32],
    out: &mut [u8],
) -> Returned
    ensures { Called (mode_of partial) sheet.now work1.old work2.old out.old result.number result.line result.length out.new work1.new work2.new }
{
    if work1.len() < ROOM {
        return Returned {
            number: 1,
            line: 0,
            length: 0,
        };
    }
    if work2.len() < ROOM {
        return Returned {
            number: 1,
            line: 0,
            length: 0,
        };
    }
    let r = answered(sheet, partial, &mut work1[..ROOM], &mut work2[..ROOM], out);
    clear(work1);
    clear(work2);
    r
}

// The answer to a partial sheet.
pub fn partial(sheet: &[u8], work1: &mut [u32], work2: &mut [u32], out: &mut [u8]) -> Returned
    ensures { Called partial sheet.now work1.old work2.old out.old result.number result.line result.length out.new work1.new work2.new }
{
    call(sheet, true, work1, work2, out)
}

// The answer to a complete sheet.
pub fn complete(sheet: &[u8], work1: &mut [u32], work2: &mut [u32], out: &mut [u8]) -> Returned
    ensures { Called complete sheet.now work1.old work2.old out.old result.number result.line result.length out.new work1.new work2.new }
{
    call(sheet, false, work1, work2, out)
}
