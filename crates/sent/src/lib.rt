// A sheet that the words hold, run and answered. What a run says of each policy, its class and what is left of it, is taken from the promises of
// `interpret` and `evaluator` alone.
#![tactic(auto)]

ghost use Rattle.std.specs.Prelude.{◌≡◌, ◌≤◌, length};
ghost use Rattle.sheet.specs.Forms.{partial, complete};
ghost use Rattle.print.specs.Written.{Written};
ghost use Rattle.response.specs.Naming.{name_of, why_in};
ghost use Rattle.response.specs.Printed.{complete_bytes, partial_bytes};
ghost use Rattle.response.specs.Runs.{Sends, Prints, Runs};

use interpret::{CLASSES, ROOTS};
use print::Out;
use response::{Policies, answer};
use table::{RUN, count};
use words::{ROOM, cut};

// An answer printed, 0, or a buffer too short for it, 10; the bytes of the answer in both cases.
#[derive(Clone, Copy)]
pub struct Sent {
    pub number: u32,
    pub length: usize,
}

// No answer has more bytes than this,
const MOST_ANSWER: usize = 1048576;

// no head of an answer more than this,
const MOST_HEAD: usize = 230;

// and no line of a policy more than this.
const MOST_POLICY: usize = 63;

// A complete answer at the start of a buffer, and its length.
fn print_complete(buffer: &mut [u8], policies: &Policies, why: Option<u32>) -> usize
    ensures { Written buffer.old 0 (complete_bytes (name_of policies.now.rows.now why) policies.now.rows.now policies.now.classes.now) buffer.new result }
{
    let mut out = Out::new(buffer);
    answer::complete(&mut out, policies, why);
    out.len()
}

// A partial answer, likewise.
fn print_partial(
    buffer: &mut [u8],
    policies: &Policies,
    log: &[u32],
    roots: &[u32],
    why: Option<u32>,
) -> usize
    ensures { Written buffer.old 0 (partial_bytes (name_of policies.now.rows.now why) policies.now.rows.now log.now policies.now.classes.now roots.now) buffer.new result }
{
    let mut out = Out::new(buffer);
    answer::partial(&mut out, policies, log, roots, why);
    out.len()
}

// A complete answer printed, where the buffer has room for it: counted first where it may have none. Its name is found once, for the counting and for
// the printing.
pub fn send_complete(out: &mut [u8], rows: &[u32], classes: &[u32]) -> Sent
    ensures { Sends (complete_bytes (why_in rows.now classes.now) rows.now classes.now) out.old result.number result.length out.new }
{
    let policies = Policies { rows, classes };
    let why = policies.why();
    if out.len() >= MOST_HEAD + MOST_POLICY * count(rows, RUN) as usize {
        let n = print_complete(out, &policies, why);
        return Sent {
            number: 0,
            length: n,
        };
    }
    let k = print_complete(&mut out[..0], &policies, why);
    if out.len() < k {
        return Sent {
            number: 10,
            length: k,
        };
    }
    print_complete(out, &policies, why);
    Sent {
        number: 0,
        length: k,
    }
}

// A partial answer printed, where the buffer is known to have room for it.
fn fill_partial(out: &mut [u8], rows: &[u32], log: &[u32], classes: &[u32], roots: &[u32]) -> Sent
    ensures { Prints (partial_bytes (why_in rows.now classes.now) rows.now log.now classes.now roots.now) out.old result.number result.length out.new }
{
    let policies = Policies { rows, classes };
    let why = policies.why();
    let n = print_partial(out, &policies, log, roots, why);
    Sent {
        number: 0,
        length: n,
    }
}

// A partial answer printed, where the buffer has room for it.
fn send_partial(out: &mut [u8], rows: &[u32], log: &[u32], classes: &[u32], roots: &[u32]) -> Sent
    requires { (length rows.now ≤ 16384) × (length log.now ≤ 16384) }
    ensures { Sends (partial_bytes (why_in rows.now classes.now) rows.now log.now classes.now roots.now) out.old result.number result.length out.new }
{
    let policies = Policies { rows, classes };
    let why = policies.why();
    let n = print_partial(&mut out[..0], &policies, log, roots, why);
    if out.len() < n {
        return Sent {
            number: 10,
            length: n,
        };
    }
    print_partial(out, &policies, log, roots, why);
    Sent {
        number: 0,
        length: n,
    }
}

// A complete sheet that the words hold, run and answered.
pub fn answer_complete(sheet: &[u8], rows: &mut [u32], log: &mut [u32], out: &mut [u8]) -> Sent
    requires { 16384 ≤ length log.old }
    ensures { Runs complete sheet.now rows.old log.old out.old result.number result.length out.new }
{
    let n = evaluator::run(sheet, rows, log);
    send_complete(out, rows, cut(log, 0, n))
}

// A partial sheet that the words hold, run and answered. The answer need not be counted first into a buffer that is long enough for every answer.
pub fn answer_partial(sheet: &[u8], rows: &mut [u32], log: &mut [u32], out: &mut [u8]) -> Sent
    requires { (length rows.old ≡ 16384) × (length log.old ≡ 16384) }
    ensures { Runs partial sheet.now rows.old log.old out.old result.number result.length out.new }
{
    let e = interpret::run(sheet, rows, log);
    interpret::lines(rows, log, e);
    let left = cut(log, 0, e);
    let classes = cut(log, CLASSES, ROOM);
    let roots = cut(log, ROOTS, ROOM);
    if out.len() >= MOST_ANSWER {
        if sheet.len() <= ROOM {
            return fill_partial(out, rows, left, classes, roots);
        }
    }
    send_partial(out, rows, left, classes, roots)
}
