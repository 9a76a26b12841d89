// Known pairs of sheets, written by scripts/known.py: the cases of `finish`, which agree, break agreement at a line of each key, or are
// refused by a sheet's own checks; some with slices and buffers of other lengths; and the pairs of examples/. For each one line with its
// name, what the call returned and whether slices and buffer came back as promised, then the answer.
// Standard input: the number of records; a record is a line `name,partial,complete,first,second,buffer` (the bytes of its name and
// of each sheet, the words of each work slice, the bytes of the buffer), then its name and the two sheets.
#![tactic(auto)]

use finish::finish;
use trial::{heading, number, taken, try_call};

fn record(rt: &(impl Input + Print)) {
    let (shown, filled, lengths) = heading(rt);
    let mut first = [0u8; 16400];
    let partial = taken(rt, &mut first, shown);
    let mut second = [0u8; 16400];
    let complete = taken(rt, &mut second, filled);
    try_call(
        rt,
        lengths,
        |a, b, out| finish(partial, complete, a, b, out),
    );
}

fn main(rt: HostRuntime) {
    for _ in 0..number(&rt) {
        record(&rt);
    }
}
