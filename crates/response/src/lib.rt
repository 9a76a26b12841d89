// The response: what each policy is called, how many are called so, the decision that these give, and the printed answer. A policy's
// class is a word of a slice; its effect and its id stand in its row of the sheet.
#![tactic(auto)]

pub mod answer;

ghost use Rattle.std.specs.Prelude.{◌≡◌, [], ◌+◌, ◌<◌, get_or};
ghost use Rattle.table.specs.Layout.{RUN, rows_of};
ghost use Rattle.cedar.specs.Canonical.{bit};
ghost use Rattle.cedar.specs.Response.{decision};
ghost use Rattle.cedar.specs.Response as Cedar;
ghost use Rattle.sheet.specs.Ascii.{ascii};
ghost use Rattle.sheet.specs.Answer.{decision_word, how_many};
ghost use Rattle.sheet.specs.Why.{first_name};
ghost use Rattle.residual.specs.Classes.{CLASS_TRUE, CLASS_FALSE, CLASS_ERROR, CLASS_OPEN};
ghost use Rattle.tpe.specs.Classes as Called;
ghost use Rattle.response.specs.Verdicts.{effect_said, effect_in, class_in, effect_is, class_is, effect_number, decision_of, verdicts_said};
ghost use Rattle.response.specs.Naming.{name_of, true_in, why_in};

use forms::{FORBID, PERMIT};
use residual::{CLASS_ERROR, CLASS_FALSE, CLASS_TRUE};
use table::{RUN, count, item, row};
use tpe::Class;
use words::read;

// What the policies decide.
#[derive(Clone, Copy, Debug, PartialEq, Eq)]
pub enum Decision {
    Allow,
    Deny,
    Open,
}

impl Decision {
    // What its line says.
    #[tactic(auto, using(crate::proofs::Wording::decision_said_law))]
    pub fn word(self) -> &'static [u8]
        ensures { result.now ≡ ascii (decision_word (decision_of self)) }
    {
        match self {
            Decision::Allow => b"allow",
            Decision::Deny => b"deny",
            Decision::Open => b"open",
        }
    }
}

// The effect of a policy.
#[derive(Clone, Copy, Debug, PartialEq, Eq)]
pub enum Effect {
    Permit,
    Forbid,
}

// How many policies of one effect are true, false, in error and open.
#[derive(Clone, Copy, Debug, Default, PartialEq, Eq)]
pub struct Counts {
    pub trues: u32,
    pub falses: u32,
    pub errors: u32,
    pub opens: u32,
}

impl Counts {
    // One more of this class.
    fn with(self, class: Class) -> Counts
        requires few { (self.trues < 4294967295) × (self.falses < 4294967295) × (self.errors < 4294967295) × (self.opens < 4294967295) }
        ensures trues { result.trues ≡ self.trues + bit (class_is CLASS_TRUE (Called.class_in class)) }
        ensures falses { result.falses ≡ self.falses + bit (class_is CLASS_FALSE (Called.class_in class)) }
        ensures errors { result.errors ≡ self.errors + bit (class_is CLASS_ERROR (Called.class_in class)) }
        ensures opens { result.opens ≡ self.opens + bit (class_is CLASS_OPEN (Called.class_in class)) }
    {
        match class {
            Class::True => Counts {
                trues: self.trues + 1,
                ..self
            },
            Class::False => Counts {
                falses: self.falses + 1,
                ..self
            },
            Class::Error => Counts {
                errors: self.errors + 1,
                ..self
            },
            Class::Open => Counts {
                opens: self.opens + 1,
                ..self
            },
        }
    }
}

// A class by its number; a greater number is open too.
fn class_of(number: u32) -> Class
    ensures { Called.class_in result ≡ class_in number }
{
    match number {
        CLASS_TRUE => Class::True,
        CLASS_FALSE => Class::False,
        CLASS_ERROR => Class::Error,
        _ => Class::Open,
    }
}

// The policies that run: the words that hold their sheet, and a word of class for each of them.
#[derive(Clone, Copy)]
pub struct Policies<'a> {
    pub rows: &'a [u32],
    pub classes: &'a [u32],
}

impl<'a> Policies<'a> {
    // The effect of policy `i`.
    pub fn effect(&self, i: u32) -> Effect
        ensures { effect_said result ≡ effect_in (get_or (rows_of self.now.rows.now RUN) i []) }
    {
        if item(row(self.rows, RUN, i), 2) == FORBID {
            return Effect::Forbid;
        }
        Effect::Permit
    }

    // The class of policy `i`; a greater number is open too.
    pub fn class(&self, i: u32) -> Class
        ensures { Called.class_in result ≡ class_in (get_or self.now.classes.now i 0) }
    {
        class_of(read(self.classes, i as usize))
    }

    // The counts of an effect.
    pub fn counts(&self, effect: Effect) -> Counts
        ensures trues { result.trues ≡ how_many (effect_is (effect_number (effect_said effect))) (class_is CLASS_TRUE) (verdicts_said self.now) }
        ensures falses { result.falses ≡ how_many (effect_is (effect_number (effect_said effect))) (class_is CLASS_FALSE) (verdicts_said self.now) }
        ensures errors { result.errors ≡ how_many (effect_is (effect_number (effect_said effect))) (class_is CLASS_ERROR) (verdicts_said self.now) }
        ensures opens { result.opens ≡ how_many (effect_is (effect_number (effect_said effect))) (class_is CLASS_OPEN) (verdicts_said self.now) }
    {
        let mut counts = Counts::default();
        for i in 0..count(self.rows, RUN) {
            if self.effect(i) != effect {
                continue;
            }
            counts = counts.with(self.class(i));
        }
        counts
    }

    // The counts of an effect by its number; no policy has another.
    pub fn counts_by_number(&self, effect: u32) -> Counts
        ensures trues { result.trues ≡ how_many (effect_is effect) (class_is CLASS_TRUE) (verdicts_said self.now) }
        ensures falses { result.falses ≡ how_many (effect_is effect) (class_is CLASS_FALSE) (verdicts_said self.now) }
        ensures errors { result.errors ≡ how_many (effect_is effect) (class_is CLASS_ERROR) (verdicts_said self.now) }
        ensures opens { result.opens ≡ how_many (effect_is effect) (class_is CLASS_OPEN) (verdicts_said self.now) }
    {
        match effect {
            PERMIT => self.counts(Effect::Permit),
            FORBID => self.counts(Effect::Forbid),
            _ => Counts::default(),
        }
    }

    // The decision that the classes give.
    pub fn decision(&self) -> Decision
        ensures { decision_of result ≡ decision (verdicts_said self.now) }
    {
        let permits = self.counts(Effect::Permit);
        let forbids = self.counts(Effect::Forbid);
        let true_forbids = forbids.trues > 0;
        let true_permits = permits.trues > 0;
        let residual_permits = permits.opens > 0;
        let residual_forbids = forbids.opens > 0;
        decide(
            true_forbids,
            true_permits,
            residual_permits,
            residual_forbids,
        )
    }

    // The first policy of an effect that is called true.
    fn first_true(&self, effect: Effect) -> Option<u32>
        ensures { name_of self.now.rows.now result ≡ first_name (true_in self.now.rows.now self.now.classes.now (effect_number (effect_said effect))) }
    {
        for i in 0..count(self.rows, RUN) {
            if self.effect(i) == effect && self.class(i) == Class::True {
                return Some(i);
            }
        }
        None
    }

    // The policy that the answer names: the first true forbid for a deny, the first true permit for an allow.
    pub fn why(&self) -> Option<u32>
        ensures { name_of self.now.rows.now result ≡ why_in self.now.rows.now self.now.classes.now }
    {
        match self.decision() {
            Decision::Allow => self.first_true(Effect::Permit),
            Decision::Deny => self.first_true(Effect::Forbid),
            Decision::Open => None,
        }
    }
}

// The decision, told whether there are true forbids, true permits, open permits and open forbids.
pub fn decide(
    true_forbids: bool,
    true_permits: bool,
    residual_permits: bool,
    residual_forbids: bool,
) -> Decision
    ensures { decision_of result ≡ Cedar.decide true_forbids true_permits residual_permits residual_forbids }
{
    if true_forbids {
        return Decision::Deny;
    }
    if true_permits {
        if residual_forbids {
            return Decision::Open;
        }
        return Decision::Allow;
    }
    if residual_permits {
        return Decision::Open;
    }
    Decision::Deny
}
