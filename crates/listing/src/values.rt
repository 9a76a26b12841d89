// The values that a run made, printed as the sheet's values are.
ghost use Rattle.std.specs.Prelude.{◌∷◌, ◌++◌, drop};
ghost use Rattle.print.specs.Out.{Prints};
ghost use Rattle.sheet.specs.Bytes.{commas, digits};
ghost use Rattle.sheet.specs.State.{entries_of};
ghost use Rattle.sheet.specs.Answer.{numbers, entry_items, value_items};
ghost use Rattle.value.specs.Shapes.{shape_row};
ghost use Rattle.listing.specs.Values.{after, value_line, made_lines};

use crate::names::shape_name;
use crate::number_after;
use print::Out;
use table::{MADE, count, items, row};
use value::{Shape, shape_of};

// Numbers, each after a comma.
pub fn numbers(out: &mut Out, words: &[u32])
    ensures { Prints out.old (after (numbers words.now)) out.new }
{
    for &word in words {
        number_after(out, b',', word as u64);
    }
}

// A text and what it has, each after a comma.
pub fn entry(out: &mut Out, text: u32, has: u64)
    ensures { Prints out.old ((44 ∷ digits text) ++ (44 ∷ digits has)) out.new }
{
    number_after(out, b',', text as u64);
    number_after(out, b',', has);
}

// A record's texts and values in turn, each after a comma.
fn entries(out: &mut Out, words: &[u32])
    ensures { Prints out.old (after (entry_items (entries_of words.now))) out.new }
{
    let (pairs, _) = words.as_chunks::<2>();
    for pair in pairs {
        entry(out, pair[0], pair[1] as u64);
    }
}

// What a value of this shape and these items says after its name, each item after a comma.
fn said_items(out: &mut Out, shape: Shape, members: &[u32])
    ensures { Prints out.old (after (drop 1 (value_items (shape_row shape members.now)))) out.new }
{
    match shape {
        Shape::Bool(b) => number_after(out, b',', b as u64),
        Shape::Long(word) => {
            out.byte(b',');
            out.long(word);
        }
        Shape::Text(text) => number_after(out, b',', text as u64),
        Shape::Entity(kind, text) => entry(out, kind, text as u64),
        Shape::Set => numbers(out, members),
        Shape::Record => entries(out, members),
    }
}

// What a value of this shape and these items says.
fn said(out: &mut Out, shape: Shape, members: &[u32])
    ensures { Prints out.old (commas (value_items (shape_row shape members.now))) out.new }
{
    out.bytes(shape_name(shape));
    said_items(out, shape, members);
}

// The line of a value's row.
pub fn value_line(out: &mut Out, line: &[u32])
    ensures { Prints out.old (value_line line.now) out.new }
{
    out.bytes(b"value=");
    said(out, shape_of(line), items(line));
    out.byte(b'\n');
}

// The lines of all values made.
pub fn made_values(out: &mut Out, rows: &[u32])
    ensures { Prints out.old (made_lines rows.now) out.new }
{
    for i in 0..count(rows, MADE) {
        value_line(out, row(rows, MADE, i));
    }
}
