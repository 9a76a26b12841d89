// Document 02, 2.6: "Each ancestor's kind must be among those above .. for all reached", asked of the entity lines once they are all read.
#![tactic(auto)]

ghost use Rattle.std.specs.Prelude.{◌≡◌, true, [], ◌≤◌, ◌<◌, length};
ghost use Rattle.sheet.specs.Forms.{VALUE, ENTITY};
ghost use Rattle.sheet.specs.Parents.{parents};
ghost use Rattle.table.specs.Layout.{rows_of};
ghost use Rattle.reach.specs.Marks.{VALUES, FAR, Filled, line_rows, marked_at, any_marked};
ghost use Rattle.typesets.specs.Sets.{Each};
ghost use Rattle.typerows.specs.Types.{is_above_at};
ghost use Rattle.above.specs.Fitting.{all_above, unfit_at, unfit_value, Unfit, Passed, Passes, Fit, Fitted, unfit_from};

use forms::{ENTITY, ENTITY_VALUE, VALUE};
use reach::{FAR, LINES, MARKS, VALUES, line_at, lines, parents_of, place_of, reach, values};
use table::{count, item, row, tag};
use typesets::KIND_WORDS;
use typing::lines::{add_above, is_ancestor, is_ancestor_by};
use words::{item_or, put, read};

// Whether the values of a list are all entities of kinds above this one.
fn all_above(rows: &[u32], kind: u32, list: &[u32]) -> bool
    ensures { result ≡ all_above rows.now kind list.now }
{
    list.iter().all(|&value| is_ancestor(rows, value, kind))
}

// Whether line `number` is marked and names a parent of a kind that is not above.
fn unfit_at(rows: &[u32], kind: u32, marks: &[u32], number: u32) -> bool
    ensures { result ≡ marked_at (unfit_at rows.now kind) marks.now number }
{
    if read(marks, number as usize) == 0 {
        return false;
    }
    !all_above(rows, kind, parents_of(rows, number))
}

// Whether a marked line names a parent of a kind that is not above: asked where a parent was met that a table by value does not have.
fn any_unfit(rows: &[u32], kind: u32, marks: &[u32]) -> bool
    ensures { result ≡ any_marked (unfit_at rows.now kind) marks.now 0 (length (line_rows rows.now)) }
{
    (0..lines(rows)).any(|i| unfit_at(rows, kind, marks, i))
}

// Whether `value` was met and is not an entity of a kind above this one, with a set of kinds that are.
fn unfit_value(rows: &[u32], above: &[u32], kind: u32, met: &[u8], value: u32) -> bool
    requires { Each above.now (is_above_at rows.now kind) }
    ensures { result ≡ marked_at (unfit_value rows.now kind) met.now value }
{
    if item_or(met, value as usize, 0) == 0 {
        return false;
    }
    !is_ancestor_by(rows, above, value, kind)
}

// Whether a value was met that is not an entity of a kind above this one.
fn any_value(rows: &[u32], kind: u32, met: &[u8]) -> bool
    requires { length met.now ≤ VALUES }
    ensures { result ≡ any_marked (unfit_value rows.now kind) met.now 0 (length met.now) }
{
    let mut above = [0u32; KIND_WORDS];
    add_above(rows, &mut above, kind);
    for i in 0..met.len() as u32 {
        if unfit_value(rows, &above, kind, met, i) {
            return true;
        }
    }
    false
}

// Where line `number` is marked and its entity is of this kind, it is noted as fit.
fn pass_at(rows: &[u32], kind: u32, marks: &[u32], number: u32, fit: &mut [u32])
    ensures { Passed rows.now kind marks.now number fit.old fit.new }
{
    if read(marks, number as usize) == 0 {
        return;
    }
    let q = row(rows, VALUE, item(line_at(rows, number), 1));
    if tag(q) != ENTITY_VALUE {
        return;
    }
    if item(q, 1) != kind {
        return;
    }
    put(fit, number as usize, 1);
}

// The marked lines whose entities are of this kind are noted as fit: what they reach is reached from where the marks come from.
fn pass(rows: &[u32], kind: u32, marks: &[u32], fit: &mut [u32])
    ensures { Passes rows.now kind marks.now (length (line_rows rows.now)) fit.old fit.new }
{
    for i in 0..lines(rows) {
        pass_at(rows, kind, marks, i, fit);
    }
}

// Whether entity `value` reaches an entity of a kind that is not above this one, with tables for what is met and marked; where not, lines that it
// reaches are noted as fit.
fn found_unfit(
    rows: &[u32],
    kind: u32,
    value: u32,
    met: &mut [u8],
    marks: &mut [u32],
    fit: &mut [u32],
) -> bool
    requires met_len_bound { (length met.old ≤ VALUES) × (FAR < length marks.old) }
    requires filled { Filled 0 met.old × Filled 0 marks.old }
    requires fit { Fit rows.now fit.old }
    ensures { Unfit rows.now kind value fit.new result }
{
    reach(rows, value, met, marks);
    if read(marks, FAR) != 0 {
        return any_unfit(rows, kind, marks);
    }
    if any_value(rows, kind, met) {
        return true;
    }
    pass(rows, kind, marks, fit);
    false
}

// Whether entity `value` has no parents: most have none.
fn is_top(rows: &[u32], value: u32) -> bool
    ensures { result ≡ true → parents (rows_of rows.now VALUE) (line_rows rows.now) value ≡ [] }
{
    parents_of(rows, place_of(rows, value)).len() == 0
}

// Whether entity `value` reaches an entity of a kind that is not above this one.
fn reaches_unfit(rows: &[u32], kind: u32, value: u32, fit: &mut [u32]) -> bool
    requires { Fit rows.now fit.old }
    ensures { Unfit rows.now kind value fit.new result }
{
    if is_top(rows, value) {
        return false;
    }
    let mut marks: [u32; MARKS] = [0; MARKS];
    let mut met: [u8; VALUES] = [0; VALUES];
    let n = values(rows);
    found_unfit(rows, kind, value, &mut met[..n], &mut marks[..], fit)
}

// Whether the kinds that the entity of line `number` reaches are all above its own, unless the line is noted as fit.
fn reached_fit(rows: &[u32], number: u32, fit: &mut [u32]) -> bool
    requires { Fit rows.now fit.old }
    ensures { Fitted rows.now number fit.new result }
{
    if read(fit, number as usize) != 0 {
        return true;
    }
    let v = item(row(rows, ENTITY, number), 1);
    let q = row(rows, VALUE, v);
    if tag(q) != ENTITY_VALUE {
        return false;
    }
    !reaches_unfit(rows, item(q, 1), v, fit)
}

// Asks the last line: where it is fit, so are the lines of its kind that it reaches.
fn ask_last(rows: &[u32], fit: &mut [u32])
    requires { Fit rows.now fit.old }
    ensures { Fit rows.now fit.new }
{
    let n = count(rows, ENTITY);
    if n > 0 {
        reached_fit(rows, n - 1, fit);
    }
}

// The place of the first entity line that reaches a kind which is not above; as many as there are lines where none does. The last one is asked
// before, as lines may reach earlier or later ones.
pub fn first_unfit(rows: &[u32]) -> u32
    ensures { result ≡ unfit_from rows.now (rows_of rows.now ENTITY) }
{
    let n = count(rows, ENTITY);
    if n == 0 {
        return 0;
    }
    let mut fit: [u32; LINES] = [0; LINES];
    ask_last(rows, &mut fit[..]);
    for i in 0..n {
        if !reached_fit(rows, i, &mut fit[..]) {
            return i;
        }
    }
    n
}
