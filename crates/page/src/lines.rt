// The lines of a page. What a run says of each policy is a word of its class and one of `roots`.
ghost use Rattle.std.specs.Prelude.{◌≡◌, suc, ◌-◌, ◌≤◌, get_or};
ghost use Rattle.table.specs.Layout.{RUN};
ghost use Rattle.print.specs.Out.{Prints};
ghost use Rattle.residual.specs.Classes.{class_number};
ghost use Rattle.tpe.specs.Classes as Called;
ghost use Rattle.response.specs.Verdicts.{decision_of, effect_said, effect_number};
ghost use Rattle.page.specs.Said.{first_cell, effect_cell, class_cell, line_at, first_lines, shown_lines, blank_lines_def, page_in};

use crate::cells::{cell, left_off, right_number};
use print::Out;
use response::{Decision, Effect, Policies};
use table::{RUN, count, item, row, text};
use tpe::Class;

const COLUMNS: usize = 72;

// The columns of an id, of an effect, of a class and of a number of nodes.
const ID: usize = 40;

const WORD: usize = 8;

const NODES: usize = 16;

// The lines after the first, and the policies that are shown where there are more.
const LINES: u32 = 59;

const SHOWN: u32 = 58;

// `decision=` and its word.
fn decision_cell(out: &mut Out, decision: Decision)
    ensures { Prints out.old (first_cell (decision_of decision)) out.new }
{
    match decision {
        Decision::Allow => cell(out, b"decision=allow", COLUMNS),
        Decision::Deny => cell(out, b"decision=deny", COLUMNS),
        Decision::Open => cell(out, b"decision=open", COLUMNS),
    }
}

// An effect.
fn effect_cell(out: &mut Out, effect: Effect)
    ensures { Prints out.old (effect_cell (effect_number (effect_said effect))) out.new }
{
    match effect {
        Effect::Permit => cell(out, b"permit", WORD),
        Effect::Forbid => cell(out, b"forbid", WORD),
    }
}

// A class.
fn class_cell(out: &mut Out, class: Class)
    ensures { Prints out.old (class_cell (class_number (Called.class_in class))) out.new }
{
    match class {
        Class::True => cell(out, b"true", WORD),
        Class::False => cell(out, b"false", WORD),
        Class::Error => cell(out, b"error", WORD),
        Class::Open => cell(out, b"open", WORD),
    }
}

// The line of policy `i`, of which so many nodes are left.
fn policy_line(out: &mut Out, sheet: &[u8], policies: &Policies, i: u32, nodes: u64)
    ensures { Prints out.old (line_at sheet.now policies.now.rows.now policies.now.classes.now i nodes) out.new }
{
    let rows = policies.rows;
    let id = text(sheet, rows, item(row(rows, RUN, i), 1));
    let effect = policies.effect(i);
    let class = policies.class(i);
    cell(out, id, ID);
    effect_cell(out, effect);
    class_cell(out, class);
    right_number(out, nodes, NODES);
    out.byte(b'\n');
}

// The nodes after the first `before` ones, up to the root.
fn nodes_after(before: u64, root: u32) -> u64
    ensures { result ≡ suc root - before }
{
    (root as u64 + 1).saturating_sub(before)
}

// The lines of the first `n` policies.
fn policy_lines(out: &mut Out, sheet: &[u8], policies: &Policies, roots: &[u32], n: u32)
    requires { n ≤ get_or policies.now.rows.now RUN 0 }
    ensures { Prints out.old (first_lines sheet.now policies.now.rows.now policies.now.classes.now roots.now n) out.new }
{
    let mut before = 0;
    for i in 0..n {
        let root = item(roots, i as usize);
        let nodes = nodes_after(before, root);
        policy_line(out, sheet, policies, i, nodes);
        before = root as u64 + 1;
    }
}

// So many lines of spaces.
fn blank_lines(out: &mut Out, n: u32)
    ensures { Prints out.old (blank_lines_def n) out.new }
{
    for i in 0..n {
        cell(out, b"", COLUMNS);
        out.byte(b'\n');
    }
}

// The lines after the first: those of the policies, or of the first ones and how many are left off.
fn shown_lines(out: &mut Out, sheet: &[u8], policies: &Policies, roots: &[u32])
    ensures { Prints out.old (shown_lines sheet.now policies.now.rows.now policies.now.classes.now roots.now) out.new }
{
    let n = count(policies.rows, RUN);
    if n > LINES {
        policy_lines(out, sheet, policies, roots, SHOWN);
        left_off(out, (n - SHOWN) as u64, COLUMNS);
        out.byte(b'\n');
        return;
    }
    policy_lines(out, sheet, policies, roots, n);
    blank_lines(out, LINES - n);
}

// The whole page.
pub fn print_page(out: &mut Out, sheet: &[u8], policies: &Policies, roots: &[u32])
    ensures { Prints out.old (page_in sheet.now policies.now.rows.now policies.now.classes.now roots.now) out.new }
{
    decision_cell(out, policies.decision());
    out.byte(b'\n');
    shown_lines(out, sheet, policies, roots);
}
