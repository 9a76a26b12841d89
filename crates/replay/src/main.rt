// The fixed list: sheets with the original's answers, written by `host replay` (host/README.md says how), each run again. A call
// agrees if number, line, length, every byte of the buffer and every word of both slices are what the record and the promise say.
// Standard input: the number of records; a record is a line `entry,sheet,buffer,number,line,length`, then the bytes of the
// sheet, then those of the answer where the number is 0.
#![tactic(auto)]

use authorizer::Returned;
use trial::{Lengths, WORDS, bytes_kept, call, lend, number, taken, words_kept, written};

// What a record says that the call returns.
// kept: a record may say a number that no fault has, and is compared with it all the same.
#[derive(Clone, Copy, PartialEq, Eq)]
struct Wanted {
    number: usize,
    line: usize,
    length: usize,
}

impl From<Returned> for Wanted {
    fn from(r: Returned) -> Wanted {
        Wanted {
            number: r.number as usize,
            line: r.line,
            length: r.length,
        }
    }
}

// Whether the call of a record agrees, in slices with sixteen words more than a call needs and a buffer of the length that the record says.
fn record(rt: &impl Input) -> bool {
    let entry = number(rt);
    let size = number(rt);
    let lengths = Lengths {
        first: WORDS,
        second: WORDS,
        buffer: number(rt),
    };
    let wanted = Wanted {
        number: number(rt),
        line: number(rt),
        length: number(rt),
    };
    let mut first = [0u8; 16448];
    let sheet = taken(rt, &mut first, size);
    let mut second = [0u8; 65536];
    let answer = taken(rt, &mut second, written(wanted.number == 0, wanted.length));
    lend(lengths, |a, b, out| {
        let r = call(entry, sheet, a, b, out);
        Wanted::from(r) == wanted
            && words_kept(r.number, a)
            && words_kept(r.number, b)
            && bytes_kept(out, answer.len())
            && out.starts_with(answer)
    })
    .unwrap_or(false)
}

fn main(rt: HostRuntime) {
    let n = number(&rt);
    let mut agreed = 0usize;
    let mut first = None;
    for i in 0..n {
        if record(&rt) {
            agreed += 1;
        } else {
            first = first.or(Some(i));
        }
    }
    let _ = println!(rt; "{agreed} of {n} agree");
    if let Some(first) = first {
        let _ = println!(rt; "the first that does not, counted from 0: {first}");
    }
}
