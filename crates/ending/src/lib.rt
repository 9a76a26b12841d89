// What is asked where the entity lines end, and where the sheet ends.
#![tactic(auto)]

ghost use Rattle.std.specs.Prelude.{◌≡◌, ◌&&◌, not, [], ◌+◌, ◌≤◌, ◌<◌, ◌==◌, length, get_or, drop, position, SomeIff};
ghost use Rattle.cedar.specs.Numbered.{mem_n};
ghost use Rattle.sheet.specs.Ascii.{ascii};
ghost use Rattle.sheet.specs.Bytes.{starts};
ghost use Rattle.sheet.specs.Forms.{at, NODE, POLICY, LINK};
ghost use Rattle.sheet.specs.State.{before};
ghost use Rattle.sheet.specs.Typing.{nodes_under};
ghost use Rattle.sheet.specs.Sheet.{firsts, any_slot, first_unlinked, ending};
ghost use Rattle.table.specs.Layout.{USES, rows_of, held};
ghost use Rattle.uses.specs.Uses.{uses_in};
ghost use Rattle.uses.specs.Under.{Noted};
ghost use Rattle.faults.specs.Numbers.{number_of, line_of};
ghost use Rattle.ending.specs.Unfit.{unfit_line};

use above::first_unfit;
use faults::{Fault, Refusal};
use forms::{ENTITY, LINK, NO_KEY, NODE, POLICY, PRINCIPAL};
use order::enough_before;
use repeats::is_first;
use scan::rest;
use table::{USES, count, item, row};
use uses::{NO_SLOT, noted};
use words::read;

// How many lines stand before those of a key.
fn lines_before(rows: &[u32], key: usize) -> usize
    requires { key ≤ POLICY }
    ensures { (result ≡ before (held [] rows.now []) key) × (result ≤ 55834574835) }
{
    let mut lines = 0;
    for k in 0..key {
        lines += count(rows, k) as usize;
    }
    lines
}

// ---- before a line

// Whether the line at byte `at` begins with `entity=`.
fn begins_entity(sheet: &[u8], at: usize) -> bool
    ensures { result ≡ starts (ascii "entity=") (drop at sheet.now) }
{
    rest(sheet, at).starts_with(b"entity=")
}

// Where the line at byte `at` ends the entity lines: the number of the first of these that reaches a kind which is not above its own, if one does.
// A principal line was there only if none did, and before the first entity line there is none.
pub fn unfit_line(sheet: &[u8], rows: &[u32], at: usize) -> Option<usize>
    ensures { result ≡ unfit_line rows.now (drop at sheet.now) }
{
    if count(rows, PRINCIPAL) != 0 {
        return None;
    }
    let n = count(rows, ENTITY);
    if n == 0 {
        return None;
    }
    if begins_entity(sheet, at) {
        return None;
    }
    let u = first_unfit(rows);
    if u >= n {
        return None;
    }
    Some(lines_before(rows, ENTITY) + u as usize + 1)
}

// ---- after the last line

// The lowest node that is not used.
fn first_unused(rows: &[u32], work: &[u32]) -> Option<usize>
    requires { USES + get_or rows.now NODE 0 ≤ length work.now }
    ensures { result ≡ position (λ uses. uses == 0) (uses_in rows.now work.now) }
{
    let n = count(rows, NODE) as usize;
    work[USES..USES + n].iter().position(|&uses| uses == 0)
}

// Whether a policy has a slot and no link line.
// kept: rows and work are lent shared here and mutable in take, so what is noted of both would need a struct for each, which is no plainer.
fn is_unlinked(rows: &[u32], work: &[u32], policy: u32) -> bool
    requires { Noted rows.now work.now }
    ensures { result ≡ any_slot (nodes_under (held [] rows.now []) (at (get_or (rows_of rows.now POLICY) policy []) 2)) && not (mem_n policy (firsts (rows_of rows.now LINK))) }
{
    let root = item(row(rows, POLICY, policy), 3);
    noted(rows, work, root).slots != NO_SLOT && !is_first(rows, LINK, policy)
}

// The lowest policy that has a slot and no link line.
fn first_unlinked(rows: &[u32], work: &[u32]) -> Option<u32>
    requires { Noted rows.now work.now }
    ensures { SomeIff result (first_unlinked (held [] rows.now []) 0 (rows_of rows.now POLICY) < get_or rows.now POLICY 0) (first_unlinked (held [] rows.now []) 0 (rows_of rows.now POLICY)) }
{
    for policy in 0..count(rows, POLICY) {
        if is_unlinked(rows, work, policy) {
            return Some(policy);
        }
    }
    None
}

// After the last line, with the number of the next: a line missing, a slot whose policy has no link line, a node never used, or accepted.
pub fn finish(rows: &[u32], work: &[u32], next: usize) -> Result<(), Refusal>
    requires { (USES + get_or rows.now NODE 0 ≤ length work.now) × Noted rows.now work.now }
    ensures number { number_of result ≡ (ending (held [] rows.now work.now) next).number }
    ensures line { line_of result ≡ (ending (held [] rows.now work.now) next).line }
{
    if !enough_before(rows, NO_KEY) {
        return Err(Refusal {
            fault: Fault::Form,
            line: next,
        });
    }
    if let Some(policy) = first_unlinked(rows, work) {
        return Err(Refusal {
            fault: Fault::Reference,
            line: lines_before(rows, POLICY) + policy as usize + 1,
        });
    }
    if let Some(node) = first_unused(rows, work) {
        return Err(Refusal {
            fault: Fault::Uses,
            line: lines_before(rows, NODE) + node + 1,
        });
    }
    Ok(())
}
