// The calls for C and for Rust. A slice is passed as a pointer and then a length; the number is returned, line and length
// are written where the last two pointers say. include/openrules.h declares the functions and says what a caller owes.
#![tactic(auto)]

ghost use Rattle.std.specs.Prelude.{◌≡◌};
ghost use Rattle.sheet.specs.Forms.{partial, complete};
ghost use Rattle.authorizer.specs.Called.{Called};
ghost use Rattle.finished.specs.Promise.{Finished};
ghost use Rattle.firm.specs.Promise.{quote, Quotes};
ghost use Rattle.paged.specs.Promise.{Paged};
ghost use Rattle.previewed.specs.Promise.{Previewed};
ghost use Rattle.testload.specs.Loaded.{Loaded};

use authorizer::{Returned, complete, partial};
use finish::finish;
use firm::{Row, firm};
use page::page;
use preview::preview;
use testload::load;

// What a call returned, handed over: line and length are written, the number is returned.
fn handed(r: Returned, line: &mut usize, length: &mut usize) -> u32
    ensures number { result ≡ r.number }
    ensures line { line.new ≡ r.line }
    ensures length { length.new ≡ r.length }
{
    *line = r.line;
    *length = r.length;
    r.number
}

#[unsafe(no_mangle)]
pub extern "C" fn openrules_partial(
    sheet: &[u8],
    first: &mut [u32],
    second: &mut [u32],
    out: &mut [u8],
    line: &mut usize,
    length: &mut usize,
) -> u32
    ensures { Called partial sheet.now first.old second.old out.old result line.new length.new out.new first.new second.new }
{
    let r = partial(sheet, first, second, out);
    handed(r, line, length)
}

#[unsafe(no_mangle)]
pub extern "C" fn openrules_complete(
    sheet: &[u8],
    first: &mut [u32],
    second: &mut [u32],
    out: &mut [u8],
    line: &mut usize,
    length: &mut usize,
) -> u32
    ensures { Called complete sheet.now first.old second.old out.old result line.new length.new out.new first.new second.new }
{
    let r = complete(sheet, first, second, out);
    handed(r, line, length)
}

#[unsafe(no_mangle)]
pub extern "C" fn openrules_finish(
    partial: &[u8],
    complete: &[u8],
    first: &mut [u32],
    second: &mut [u32],
    out: &mut [u8],
    line: &mut usize,
    length: &mut usize,
) -> u32
    ensures { Finished partial.now complete.now first.old second.old out.old result line.new length.new out.new first.new second.new }
{
    let r = finish(partial, complete, first, second, out);
    handed(r, line, length)
}

#[unsafe(no_mangle)]
pub extern "C" fn openrules_page(
    sheet: &[u8],
    first: &mut [u32],
    second: &mut [u32],
    out: &mut [u8],
    line: &mut usize,
    length: &mut usize,
) -> u32
    ensures { Paged sheet.now first.old second.old out.old result line.new length.new out.new first.new second.new }
{
    let r = page(sheet, first, second, out);
    handed(r, line, length)
}

#[unsafe(no_mangle)]
pub extern "C" fn openrules_preview(
    sheet: &[u8],
    of_line: usize,
    replacement: &[u8],
    first: &mut [u32],
    second: &mut [u32],
    out: &mut [u8],
    line: &mut usize,
    length: &mut usize,
) -> u32
    ensures { Previewed sheet.now of_line replacement.now first.old second.old out.old result line.new length.new out.new first.new second.new }
{
    let r = preview(sheet, of_line, replacement, first, second, out);
    handed(r, line, length)
}

// No work slices are lent.
#[unsafe(no_mangle)]
pub extern "C" fn openrules_test_load(
    seed: u64,
    policies: u32,
    out: &mut [u8],
    line: &mut usize,
    length: &mut usize,
) -> u32
    ensures { Loaded seed policies out.old result line.new length.new out.new }
{
    let r = load(seed, policies, out);
    handed(r, line, length)
}

// For a list of rows; the group's decision is written where the last pointer says.
#[unsafe(no_mangle)]
pub extern "C" fn openrules_firm(
    rows: &mut [Row],
    sheet: &[u8],
    first: &mut [u32],
    second: &mut [u32],
    line: &mut usize,
    length: &mut usize,
    group: &mut u32,
) -> u32
    ensures { Quotes sheet.now rows.old first.old second.old (quote result line.new length.new group.new) rows.new first.new second.new }
{
    let f = firm(rows, sheet, first, second);
    *line = f.line;
    *length = f.length;
    *group = f.group;
    f.number
}
