// The lines of an answer that list what a run made and left, printed into a lent buffer: made values and residual nodes.
#![tactic(auto)]

pub mod names;
pub mod nodes;
pub mod values;

ghost use Rattle.std.specs.Prelude.{◌∷◌};
ghost use Rattle.print.specs.Out.{Prints};
ghost use Rattle.sheet.specs.Bytes.{digits};

use print::Out;

// A separator and a number.
pub fn number_after(out: &mut Out, separator: u8, n: u64)
    ensures { Prints out.old (separator ∷ digits n) out.new }
{
    out.byte(separator);
    out.number(n);
}
