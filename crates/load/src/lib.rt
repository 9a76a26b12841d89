// The reading of a sheet into the lent words: lines in turn, the first faulty line ends it.
#![tactic(auto)]

ghost use Rattle.std.specs.Prelude.{◌≡◌, ◌≤◌, length};
ghost use Rattle.sheet.specs.Sheet.{read};
ghost use Rattle.line.specs.Codes.{mode_of};
ghost use Rattle.faults.specs.Numbers.{number_of, line_of};
ghost use Rattle.load.specs.Result.{Read};

use ending::{finish, unfit_line};
use faults::{Fault, Refusal};
use forms::SHEET;
use scan::{Cursor, Line};
use seen::PLACE_WORDS;
use table::{HEAP, SPENT, TOP, TYPEDEPTHS};
use take::take_line;
use words::{put, zero};

// Reads the sheet; before the first line there are no rows, no pairs are remembered, no nodes are used, and no rows are seen. A line of the key `last`, that of the line before and at first the first, may come.
// The first faulty line, or the end, may refuse it; where it is accepted the words hold its rows.
pub fn load(sheet: &[u8], partial: bool, rows: &mut [u32], work: &mut [u32]) -> Result<(), Refusal>
    requires { (length sheet.now ≤ 16384) × (16384 ≤ length rows.old) × (16384 ≤ length work.old) }
    ensures { Read (read (mode_of partial) sheet.now) sheet.now rows.old work.old rows.new work.new (number_of result) (line_of result) }
{
    zero(rows, TOP);
    zero(work, TYPEDEPTHS);
    put(work, SPENT, 0);
    put(rows, TOP, HEAP as u32);
    let mut seen = [0; PLACE_WORDS];
    let mut last = SHEET;
    let mut c = Cursor::new();
    'lines: loop {
        let line = c.line;
        if let Some(unfit) = unfit_line(sheet, rows, c.at) {
            return Err(Refusal {
                fault: Fault::Typing,
                line: unfit,
            });
        }
        match c.next_line(sheet) {
            Line::Entry {
                key,
                equals,
                end,
                next,
            } => {
                take_line(
                    sheet,
                    key,
                    equals,
                    end,
                    partial,
                    rows,
                    work,
                    &mut seen[..],
                    last,
                )
                .map_err(|fault| Refusal { fault, line })?;
                last = key as usize;
                c = next;
            }
            Line::Faulty => {
                return Err(Refusal {
                    fault: Fault::Form,
                    line,
                });
            }
            Line::End => return finish(rows, work, line),
        }
    }
}
