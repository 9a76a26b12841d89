// Columns of a page: bytes cut or filled with spaces.
ghost use Rattle.sheet.specs.Bytes.{digits};
ghost use Rattle.print.specs.Out.{Prints};
ghost use Rattle.print.specs.Written.{Written};
ghost use Rattle.paged.specs.Page.{spaces, cell, right_cell, left_off};

use listing::number_after;
use print::Out;

// So many spaces.
pub fn spaces(out: &mut Out, n: usize)
    ensures { Prints out.old (spaces n) out.new }
{
    for i in 0..n {
        out.byte(b' ');
    }
}

// A text in columns of this width, from the left.
pub fn cell(out: &mut Out, text: &[u8], width: usize)
    ensures { Prints out.old (cell width text.now) out.new }
{
    if text.len() > width {
        out.bytes(&text[..width]);
        return;
    }
    out.bytes(text);
    spaces(out, width - text.len());
}

// A text in columns of this width, right aligned.
pub fn right_cell(out: &mut Out, text: &[u8], width: usize)
    ensures { Prints out.old (right_cell width text.now) out.new }
{
    if text.len() > width {
        out.bytes(&text[..width]);
        return;
    }
    spaces(out, width - text.len());
    out.bytes(text);
}

// The digits of a number at the start of a buffer, and how many bytes they are.
fn digits_in(buffer: &mut [u8], n: u64) -> usize
    ensures { Written buffer.old 0 (digits n) buffer.new result }
{
    let mut out = Out::new(buffer);
    out.number(n);
    out.len()
}

// `+` and a number, likewise.
fn signed_in(buffer: &mut [u8], n: u64) -> usize
    ensures { Written buffer.old 0 (left_off n) buffer.new result }
{
    let mut out = Out::new(buffer);
    number_after(&mut out, b'+', n);
    out.len()
}

// A number in columns of this width, right aligned.
pub fn right_number(out: &mut Out, n: u64, width: usize)
    ensures { Prints out.old (right_cell width (digits n)) out.new }
{
    let mut text = [0u8; 20];
    let k = digits_in(&mut text, n);
    right_cell(out, &text[..k], width);
}

// `+` and the number left off, in columns of this width.
pub fn left_off(out: &mut Out, n: u64, width: usize)
    ensures { Prints out.old (cell width (left_off n)) out.new }
{
    let mut text = [0u8; 21];
    let k = signed_in(&mut text, n);
    cell(out, &text[..k], width);
}
