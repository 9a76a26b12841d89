// The decision, the counts, the name and the policies printed into a lent buffer.
ghost use Rattle.std.specs.Prelude.{◌≡◌, [], ◌∷◌, ◌++◌, get_or};
ghost use Rattle.table.specs.Layout.{RUN, rows_of};
ghost use Rattle.print.specs.Out.{Prints};
ghost use Rattle.sheet.specs.Bytes.{digits};
ghost use Rattle.sheet.specs.Answer.{printed, numbers, counts_of, concat, head_lines};
ghost use Rattle.sheet.specs.Why.{why_item};
ghost use Rattle.residual.specs.Classes.{class_number};
ghost use Rattle.tpe.specs.Classes as Called;
ghost use Rattle.response.specs.Verdicts.{effect_said, effect_number, verdicts_said, decision_of};
ghost use Rattle.response.specs.Naming.{name_of};
ghost use Rattle.response.specs.Printed.{id_bytes, decision_bytes, effect_bytes, class_bytes, listed, four_of, policy_at, policy_lines, complete_bytes, rooted_lines, partial_bytes};

use crate::{Decision, Effect, Policies, class_of};
use listing::nodes::node_lines;
use listing::number_after;
use listing::values::made_values;
use print::Out;
use table::{RUN, count, item, row};
use tpe::Class;

// The line of the decision.
pub fn decision_line(out: &mut Out, decision: Decision)
    ensures { Prints out.old (decision_bytes (decision_of decision)) out.new }
{
    out.bytes(b"decision=");
    out.bytes(decision.word());
    out.byte(b'\n');
}

// The counts of one effect, after a separator: true, false, error, open.
fn counts_of(out: &mut Out, separator: u8, policies: &Policies, effect: Effect)
    ensures { Prints out.old (listed separator (four_of (effect_number (effect_said effect)) (verdicts_said policies.now))) out.new }
{
    let counts = policies.counts(effect);
    number_after(out, separator, counts.trues as u64);
    number_after(out, b',', counts.falses as u64);
    number_after(out, b',', counts.errors as u64);
    number_after(out, b',', counts.opens as u64);
}

// The line of the counts: permits, then forbids.
pub fn counts_line(out: &mut Out, policies: &Policies)
    ensures { Prints out.old (printed "counts" (numbers (counts_of (verdicts_said policies.now)))) out.new }
{
    out.bytes(b"counts");
    counts_of(out, b'=', policies, Effect::Permit);
    counts_of(out, b',', policies, Effect::Forbid);
    out.byte(b'\n');
}

// The line of the name: the id of the policy, or `none` where there is no such policy.
pub fn why_line(out: &mut Out, rows: &[u32], policy: Option<u32>)
    ensures { Prints out.old (printed "why" (why_item (name_of rows.now policy) ∷ [])) out.new }
{
    match policy {
        Some(i) if i < count(rows, RUN) => {
            out.bytes(b"why");
            number_after(out, b'=', item(row(rows, RUN, i), 1) as u64);
            out.byte(b'\n');
        }
        _ => out.bytes(b"why=none\n"),
    }
}

// The lines that every answer begins with.
pub fn head(out: &mut Out, policies: &Policies, why: Option<u32>)
    ensures { Prints out.old (concat (head_lines (name_of policies.now.rows.now why) (verdicts_said policies.now))) out.new }
{
    decision_line(out, policies.decision());
    counts_line(out, policies);
    why_line(out, policies.rows, why);
}

// An effect after a comma.
#[tactic(auto, using(crate::proofs::Wording::effect_said_law))]
fn effect_word(out: &mut Out, effect: Effect)
    ensures { Prints out.old (effect_bytes (effect_number (effect_said effect))) out.new }
{
    match effect {
        Effect::Permit => out.bytes(b",permit"),
        Effect::Forbid => out.bytes(b",forbid"),
    }
}

// A class after a comma.
#[tactic(auto, using(crate::proofs::Wording::class_said_law))]
fn class_text(class: Class) -> &'static [u8]
    ensures { result.now ≡ class_bytes (class_number (Called.class_in class)) }
{
    match class {
        Class::True => b",true",
        Class::False => b",false",
        Class::Error => b",error",
        Class::Open => b",open",
    }
}

// The same, by the class's number.
#[tactic(auto, using(crate::proofs::Wording::class_read_law))]
pub fn class_name(class: u32) -> &'static [u8]
    ensures { result.now ≡ class_bytes class }
{
    class_text(class_of(class))
}

// The same, printed.
fn class_word(out: &mut Out, class: Class)
    ensures { Prints out.old (class_bytes (class_number (Called.class_in class))) out.new }
{
    out.bytes(class_text(class));
}

// The line of policy `i` up to its id.
fn policy_id(out: &mut Out, rows: &[u32], i: u32)
    ensures { Prints out.old (id_bytes (get_or (rows_of rows.now RUN) i [])) out.new }
{
    out.bytes(b"policy");
    number_after(out, b'=', item(row(rows, RUN, i), 1) as u64);
}

// The line of policy `i` up to its class.
pub fn policy_start(out: &mut Out, policies: &Policies, i: u32)
    ensures { Prints out.old (policy_at policies.now.rows.now policies.now.classes.now i) out.new }
{
    policy_id(out, policies.rows, i);
    effect_word(out, policies.effect(i));
    class_word(out, policies.class(i));
}

// The policies of a complete answer.
pub fn policies(out: &mut Out, policies: &Policies)
    ensures { Prints out.old (concat (policy_lines policies.now.rows.now policies.now.classes.now)) out.new }
{
    for i in 0..count(policies.rows, RUN) {
        policy_start(out, policies, i);
        out.byte(b'\n');
    }
}

// A complete answer that names this policy.
pub fn complete(out: &mut Out, policies: &Policies, why: Option<u32>)
    ensures { Prints out.old (complete_bytes (name_of policies.now.rows.now why) policies.now.rows.now policies.now.classes.now) out.new }
{
    head(out, policies, why);
    self::policies(out, policies);
}

// The line of policy `i` with the number of its root.
fn rooted_line(out: &mut Out, policies: &Policies, i: u32, root: u64)
    ensures { Prints out.old (policy_at policies.now.rows.now policies.now.classes.now i ++ ((44 ∷ digits root) ++ (10 ∷ []))) out.new }
{
    policy_start(out, policies, i);
    number_after(out, b',', root);
    out.byte(b'\n');
}

// The policies of a partial answer: after the class stands the number of the residual's root, a word of `roots` for each policy.
pub fn rooted_policies(out: &mut Out, policies: &Policies, roots: &[u32])
    ensures { Prints out.old (concat (rooted_lines policies.now.rows.now policies.now.classes.now roots.now)) out.new }
{
    for i in 0..count(policies.rows, RUN) {
        rooted_line(out, policies, i, item(roots, i as usize) as u64);
    }
}

// A partial answer that names this policy: `log` holds the residuals, `roots` a word for each policy.
pub fn partial(out: &mut Out, policies: &Policies, log: &[u32], roots: &[u32], why: Option<u32>)
    ensures { Prints out.old (partial_bytes (name_of policies.now.rows.now why) policies.now.rows.now log.now policies.now.classes.now roots.now) out.new }
{
    head(out, policies, why);
    made_values(out, policies.rows);
    node_lines(out, policies.rows, log);
    rooted_policies(out, policies, roots);
}
