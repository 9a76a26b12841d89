// Try one answer: what a partial sheet gives with one line replaced, before the line is kept. The kept sheet is only read; the copy with the
// other line is on the stack: 16 KB.
#![tactic(auto)]

ghost use Rattle.std.specs.Prelude.{◌≡◌, ◌≤◌, length};
ghost use Rattle.words.specs.Log.{cleared};
ghost use Rattle.sheet.specs.Forms.{partial};
ghost use Rattle.authorizer.specs.Parts.{Answers};
ghost use Rattle.edit.specs.Places.{replaced};
ghost use Rattle.previewed.specs.Promise.{Previewed};
ghost use Rattle.preview.specs.Parts.{Tries};

use authorizer::{Returned, partial};
use edit::{begin, fills, replace};
use scan::{find, part_of};
use words::{ROOM, clear};

// The bytes of the copy.
fn copy_bytes() -> [u8; 16384]
    ensures { 16384 ≡ length result }
{
    [0; 16384]
}

// The run on the copy that has other bytes in the place of those from `start` to `end`. The work slices are left clear, by the run where there is one.
fn run(
    sheet: &[u8],
    start: usize,
    end: usize,
    new: &[u8],
    work1: &mut [u32],
    work2: &mut [u32],
    out: &mut [u8],
) -> Returned
    requires { (16384 ≤ length work1.old) × (16384 ≤ length work2.old) }
    ensures answers { Answers partial (replaced sheet.now start end new.now) out.old result.number result.line result.length out.new }
    ensures first { work1.new ≡ cleared work1.old }
    ensures second { work2.new ≡ cleared work2.old }
{
    let mut copy = copy_bytes();
    let c = replace(&mut copy, sheet, start, end, new);
    if c > ROOM {
        clear(work1);
        clear(work2);
        return Returned {
            number: 2,
            line: 0,
            length: 0,
        };
    }
    partial(&copy[..c], work1, work2, out)
}

// 2 of the kept sheet, then 12, then the run on the copy, in work slices that are long enough and left clear.
fn tried(
    sheet: &[u8],
    line: usize,
    new: &[u8],
    work1: &mut [u32],
    work2: &mut [u32],
    out: &mut [u8],
) -> Returned
    requires { (16384 ≤ length work1.old) × (16384 ≤ length work2.old) }
    ensures answers { Tries sheet.now line new.now out.old result.number result.line result.length out.new }
    ensures first { work1.new ≡ cleared work1.old }
    ensures second { work2.new ≡ cleared work2.old }
{
    if sheet.len() > ROOM {
        clear(work1);
        clear(work2);
        return Returned {
            number: 2,
            line: 0,
            length: 0,
        };
    }
    let start = begin(sheet, line);
    let end = find(sheet, start, b'\n');
    if !fills(part_of(sheet, start, end), new) {
        clear(work1);
        clear(work2);
        return Returned {
            number: 12,
            line,
            length: 0,
        };
    }
    run(sheet, start, end, new, work1, work2, out)
}

// The preview.
pub fn preview(
    sheet: &[u8],
    line: usize,
    new: &[u8],
    work1: &mut [u32],
    work2: &mut [u32],
    out: &mut [u8],
) -> Returned
    ensures { Previewed sheet.now line new.now work1.old work2.old out.old result.number result.line result.length out.new work1.new work2.new }
{
    if work1.len() < ROOM {
        return Returned {
            number: 1,
            line: 0,
            length: 0,
        };
    }
    if work2.len() < ROOM {
        return Returned {
            number: 1,
            line: 0,
            length: 0,
        };
    }
    tried(sheet, line, new, work1, work2, out)
}
