// Known sheets, written by scripts/known.py: K1 to K10 of document 01, each form and limit of a sheet, every row of the table of refusals,
// and probes of single sentences. For each one line with its name, what the call returned and whether slices and buffer came back as
// promised, then the answer.
// Standard input: the number of records; a record is a line `name,entry,sheet,first,second,buffer` (the bytes of its name, 0 partial
// or 1 complete, the bytes of the sheet, the words of each work slice, the bytes of the buffer), then its name and its sheet.
#![tactic(auto)]

use trial::{call, heading, number, taken, try_call};

fn record(rt: &(impl Input + Print)) {
    let (entry, size, lengths) = heading(rt);
    let mut space = [0u8; 16400];
    let sheet = taken(rt, &mut space, size);
    try_call(rt, lengths, |a, b, out| call(entry, sheet, a, b, out));
}

fn main(rt: HostRuntime) {
    for _ in 0..number(&rt) {
        record(&rt);
    }
}
