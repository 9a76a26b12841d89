// The counter page: a partial sheet read, run and shown on 60 lines of 72 columns, which take the answer's place in the lent buffer. The call
// asks nothing of what it is lent: what is too short is refused.
#![tactic(auto)]

pub mod cells;
pub mod lines;

ghost use Rattle.std.specs.Prelude.{◌≡◌, length};
ghost use Rattle.paged.specs.Promise.{Paged};
ghost use Rattle.print.specs.Written.{Written};
ghost use Rattle.page.specs.Said.{page_in};
ghost use Rattle.page.specs.Parts.{Shows, Pages};

use interpret::{CLASSES, ROOTS};
use lines::print_page;
use opening::open;
use print::{Out, Returned};
use response::Policies;
use sent::Sent;
use words::{ROOM, clear, cut};

// The bytes of a page.
const PAGE: usize = 4380;

// The page at the start of a buffer, and its length.
fn page_in(buffer: &mut [u8], sheet: &[u8], policies: &Policies, roots: &[u32]) -> usize
    ensures { Written buffer.old 0 (page_in sheet.now policies.now.rows.now policies.now.classes.now roots.now) buffer.new result }
{
    let mut out = Out::new(buffer);
    print_page(&mut out, sheet, policies, roots);
    out.len()
}

// A partial sheet that the words hold, run and shown: 0, or 10 where the buffer is too short for a page.
fn show(sheet: &[u8], rows: &mut [u32], log: &mut [u32], out: &mut [u8]) -> Sent
    requires { (length rows.old ≡ 16384) × (length log.old ≡ 16384) }
    ensures { Shows sheet.now rows.old log.old out.old result.number result.length out.new }
{
    if out.len() < PAGE {
        return Sent {
            number: 10,
            length: PAGE,
        };
    }
    let e = interpret::run(sheet, rows, log);
    interpret::lines(rows, log, e);
    let policies = Policies {
        rows,
        classes: cut(log, CLASSES, ROOM),
    };
    page_in(out, sheet, &policies, cut(log, ROOTS, ROOM));
    Sent {
        number: 0,
        length: PAGE,
    }
}

// A sheet read, run and shown, in work slices that are long enough.
fn paged(sheet: &[u8], rows: &mut [u32], work: &mut [u32], out: &mut [u8]) -> Returned
    requires { (length rows.old ≡ 16384) × (length work.old ≡ 16384) }
    ensures { Pages sheet.now out.old result.number result.line result.length out.new }
{
    if let Err(refusal) = open(sheet, true, rows, work) {
        return Returned {
            number: refusal.fault.into(),
            line: refusal.line,
            length: 0,
        };
    }
    let s = show(sheet, rows, work, out);
    Returned {
        number: s.number,
        line: 0,
        length: s.length,
    }
}

// The page of a partial sheet. What was used of the work slices is cleared.
pub fn page(sheet: &[u8], work1: &mut [u32], work2: &mut [u32], out: &mut [u8]) -> Returned
    ensures { Paged sheet.now work1.old work2.old out.old result.number result.line result.length out.new work1.new work2.new }
{
    if work1.len() < ROOM {
        return Returned {
            number: 1,
            line: 0,
            length: 0,
        };
    }
    if work2.len() < ROOM {
        return Returned {
            number: 1,
            line: 0,
            length: 0,
        };
    }
    let r = paged(sheet, &mut work1[..ROOM], &mut work2[..ROOM], out);
    clear(work1);
    clear(work2);
    r
}
