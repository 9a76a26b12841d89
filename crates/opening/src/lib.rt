// A sheet opened: refused with 2 to 8, or held by the words, its policies on term as those that run. Every call over a sheet begins so.
#![tactic(auto)]

ghost use Rattle.std.specs.Prelude.{◌≤◌, length};
ghost use Rattle.line.specs.Codes.{mode_of};
ghost use Rattle.faults.specs.Numbers.{number_of, line_of};
ghost use Rattle.opening.specs.Opens.{Opens};

use faults::{Fault, Refusal};
use load::load;
use running::choose;
use words::ROOM;

// A sheet opened in work slices that are long enough.
pub fn open(sheet: &[u8], partial: bool, rows: &mut [u32], work: &mut [u32]) -> Result<(), Refusal>
    requires { (16384 ≤ length rows.old) × (16384 ≤ length work.old) }
    ensures { Opens (mode_of partial) sheet.now (number_of result) (line_of result) rows.new work.new }
{
    if sheet.len() > ROOM {
        return Err(Fault::LongSheet.into());
    }
    load(sheet, partial, rows, work)?;
    choose(rows);
    Ok(())
}
