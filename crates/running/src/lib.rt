// The policies that run: the rows of those on term, written after the sheet's rows as the rows of a key that stands in words only.
#![tactic(auto)]

ghost use Rattle.std.specs.Prelude.{◌≡◌, ◌&&◌, [], ◌∷◌, leb, get_or};
ghost use Rattle.sheet.specs.Forms.{at, POLICY, LINK, TERM};
ghost use Rattle.sheet.specs.Content.{runs_on, link_of, with_link};
ghost use Rattle.table.specs.Layout.{rows_of};
ghost use Rattle.running.specs.Chosen.{Choosable, Chosen, Runnable, with_run};

use forms::{DAY, LINK, MARK, POLICY, TERM};
use table::{RUN, RUN_WORDS, TOP, add_row, count, item, row};
use words::{read, store};

// Whether a day is one of a term's: both edge days are.
fn is_within(term: &[u32], day: u32) -> bool
    ensures { result ≡ leb (at term.now 1) day && leb day (at term.now 2) }
{
    if item(term, 2) > day {
        return false;
    }
    day <= item(term, 3)
}

// Whether a policy runs on a day: one without a term always does.
#[tactic(auto, using(crate::proofs::Looking::no_term, crate::proofs::Looking::this_term))]
fn runs_on(rows: &[u32], day: u32, policy: u32) -> bool
    ensures { result ≡ runs_on day (rows_of rows.now TERM) policy }
{
    for i in 0..count(rows, TERM) {
        let term = row(rows, TERM, i);
        if item(term, 1) == policy {
            return is_within(term, day);
        }
    }
    true
}

// The two values of a link, marks where there is none.
#[derive(Clone, Copy)]
struct Link {
    principal: u32,
    resource: u32,
}

// The link of a policy.
#[tactic(auto, using(crate::proofs::Looking::no_link, crate::proofs::Looking::this_link))]
fn link_of(rows: &[u32], policy: u32) -> Link
    ensures { result.principal ∷ result.resource ∷ [] ≡ link_of (rows_of rows.now LINK) policy }
{
    for i in 0..count(rows, LINK) {
        let line = row(rows, LINK, i);
        if policy == item(line, 1) {
            return Link {
                principal: item(line, 2),
                resource: item(line, 3),
            };
        }
    }
    Link {
        principal: MARK,
        resource: MARK,
    }
}

// The row of a policy once more, with its link's values after it, as that of one that runs.
fn run_row(rows: &mut [u32], policy: u32)
    requires { Runnable rows.old policy }
    ensures { rows.new ≡ with_run rows.old (with_link (get_or (rows_of rows.old POLICY) policy []) (link_of (rows_of rows.old LINK) policy)) }
{
    let link = link_of(rows, policy);
    let line = row(rows, POLICY, policy);
    let words = [
        item(line, 0),
        item(line, 1),
        item(line, 2),
        item(line, 3),
        link.principal,
        link.resource,
    ];
    let top = read(rows, TOP);
    store(rows, top as usize, &words);
    add_row(rows, RUN, top + RUN_WORDS);
}

// The policies that run, in the sheet's order.
pub fn choose(rows: &mut [u32])
    requires { Choosable rows.old }
    ensures { Chosen rows.old rows.new }
{
    let day = item(row(rows, DAY, 0), 1);
    for i in 0..count(rows, POLICY) {
        if runs_on(rows, day, i) {
            run_row(rows, i);
        }
    }
}
