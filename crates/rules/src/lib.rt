// The type rules, which decide a node by the types of its operands alone, over the rows in the lent words.
#![tactic(auto)]

ghost use Rattle.std.specs.Prelude.{◌≡◌};
ghost use Rattle.cedar.specs.Types.{tstr, some_kind, each_kind};
ghost use Rattle.cedar.specs.Residual.{uis, beq, rin, rhastag};
ghost use Rattle.cedar.specs.Interpret.{alone};
ghost use Rattle.cedar.specs.TypeRules.{un_rule, bin_rule, rel_rule, has_rule};
ghost use Rattle.fits.specs.Fit.{kinds_in, kind_in};
ghost use Rattle.typesets.specs.Sets.{Each};
ghost use Rattle.rules.specs.Rules.{rule_in, schema_at, ty_at, target_row, KindSet, pair_with, untagged, type_lacks, lacking, record_rule};

use fits::{has_kind, kinds};
use forms::{ENTITY_TYPE, MARK, SET_TYPE, SHAPE, TYPE};
use table::{item, row, tag};
use typerows::{attribute, attribute_type, is_action, kinds_above, record_of, tag_type};
use typesets::{KIND_WORDS, TYPE_WORDS};
use words::{add, has};

// A sheet has no more kinds.
const KINDS: u32 = 32;

// ---- kinds

// `is` of a kind on a type: a sole kind decides it, more kinds only where it is none of them.
pub fn is_rule(rows: &[u32], kind: u32, ty: u32) -> Option<bool>
    ensures { rule_in result ≡ un_rule (schema_at rows.now) (uis kind) (ty_at rows.now ty) }
{
    let q = row(rows, TYPE, ty);
    if tag(q) != ENTITY_TYPE {
        return None;
    }
    if q.len() < 3 {
        return Some(kind == item(q, 1));
    }
    if has_kind(q, kind) {
        return None;
    }
    Some(false)
}

// The kinds of an entity type's row, and a set of those that it has words for.
#[derive(Drop)]
struct Kinds<'a> {
    row: &'a [u32],
    set: [u32; KIND_WORDS],
    ghost agrees: { KindSet row.now set },
}

impl<'a> Kinds<'a> {
    fn of(row: &'a [u32]) -> Kinds<'a>
        ensures { result.row.now ≡ row.now }
    {
        let mut set = [0u32; KIND_WORDS];
        for &kind in kinds(row) {
            add(&mut set, kind as usize);
        }
        Kinds { row, set }
    }

    // Whether a kind is among them. One that the set has no word for is looked for in the row.
    fn has(&self, kind: u32) -> bool
        ensures { result ≡ kind_in self.now.row.now kind }
    {
        if kind < KINDS {
            return has(&self.set, kind as usize);
        }
        has_kind(self.row, kind)
    }
}

// Whether two entity types have a kind in common.
fn share_kind(type_row: &[u32], others: &Kinds) -> bool
    ensures { result ≡ some_kind (kind_in others.now.row.now) (kinds_in type_row.now) }
{
    kinds(type_row).iter().any(|&kind| others.has(kind))
}

// `eq` on two types.
pub fn eq_rule(rows: &[u32], ty: u32, other: u32) -> Option<bool>
    ensures { rule_in result ≡ bin_rule (schema_at rows.now) beq (ty_at rows.now ty) (ty_at rows.now other) }
{
    let q = row(rows, TYPE, ty);
    if tag(q) != ENTITY_TYPE {
        return None;
    }
    let p = row(rows, TYPE, other);
    if tag(p) != ENTITY_TYPE {
        return None;
    }
    if share_kind(q, &Kinds::of(p)) {
        return None;
    }
    Some(false)
}

// The row of a type, or of the elements of a set. A type refers to earlier ones: a row that names a later one is read as a set of bools.
fn target_row(rows: &[u32], ty: u32) -> &[u32]
    ensures { result.now ≡ target_row rows.now ty }
{
    let q = row(rows, TYPE, ty);
    if tag(q) != SET_TYPE {
        return q;
    }
    let e = item(q, 1);
    if e < ty {
        return row(rows, TYPE, e);
    }
    &rows[0..0]
}

// Whether an entity of a kind may be in one of an entity type.
fn pair_with(rows: &[u32], others: &Kinds, kind: u32) -> bool
    ensures { result ≡ pair_with rows.now others.now.row.now kind }
{
    others.has(kind)
        || kinds_above(rows, kind)
            .iter()
            .any(|&above| others.has(above))
}

// Whether an entity of one entity type may be in one of another.
fn some_pair(rows: &[u32], type_row: &[u32], others: &Kinds) -> bool
    ensures { result ≡ some_kind (pair_with rows.now others.now.row.now) (kinds_in type_row.now) }
{
    kinds(type_row)
        .iter()
        .any(|&kind| pair_with(rows, others, kind))
}

// `in` on two types.
pub fn in_rule(rows: &[u32], ty: u32, other: u32) -> Option<bool>
    ensures { rule_in result ≡ rel_rule (schema_at rows.now) rin (ty_at rows.now ty) (ty_at rows.now other) }
{
    let q = row(rows, TYPE, ty);
    if tag(q) != ENTITY_TYPE {
        return None;
    }
    let p = target_row(rows, other);
    if tag(p) != ENTITY_TYPE {
        return None;
    }
    if some_pair(rows, q, &Kinds::of(p)) {
        return None;
    }
    Some(false)
}

// ---- tags and attributes

// Whether no entity of a kind has tags. Nothing is ruled out for an action kind.
fn lacks_tags(rows: &[u32], kind: u32) -> bool
    ensures { result ≡ untagged rows.now kind }
{
    if is_action(rows, kind) {
        return false;
    }
    tag_type(rows, kind) == MARK
}

// `hastag` on a type; the second operand is a string, and no rule asks for it.
pub fn hastag_rule(rows: &[u32], ty: u32) -> Option<bool>
    ensures { rule_in result ≡ rel_rule (schema_at rows.now) rhastag (ty_at rows.now ty) tstr }
{
    let q = row(rows, TYPE, ty);
    if tag(q) != ENTITY_TYPE {
        return None;
    }
    kinds(q)
        .iter()
        .all(|&kind| lacks_tags(rows, kind))
        .then_some(false)
}

// Whether a type is no record type that declares this attribute. `found` has record types that were found not to, so that none is searched twice.
fn type_lacks(rows: &[u32], found: &mut [u32], text: u32, ty: u32) -> bool
    requires { Each found.old (type_lacks rows.now text) }
    ensures { (result ≡ type_lacks rows.now text ty) × Each found.new (type_lacks rows.now text) }
{
    if has(found, ty as usize) {
        return true;
    }
    let Some(y) = record_of(rows, ty) else {
        return true;
    };
    if attribute(rows, y, text).is_some() {
        return false;
    }
    add(found, ty as usize);
    true
}

// Whether no entity of a kind has this attribute, with types found to lack it. Nothing is ruled out for an action kind.
fn lacks(rows: &[u32], found: &mut [u32], text: u32, kind: u32) -> bool
    requires { Each found.old (type_lacks rows.now text) }
    ensures { (result ≡ lacking rows.now text kind) × Each found.new (type_lacks rows.now text) }
{
    if is_action(rows, kind) {
        return false;
    }
    type_lacks(rows, found, text, attribute_type(rows, kind))
}

// `has` of an attribute on an entity of a kind.
pub fn has_kind_rule(rows: &[u32], text: u32, kind: u32) -> Option<bool>
    ensures { rule_in result ≡ has_rule (schema_at rows.now) text (alone kind) }
{
    let mut found = [0u32; TYPE_WORDS];
    lacks(rows, &mut found, text, kind).then_some(false)
}

// Whether no entity of an entity type has this attribute.
fn each_lacks(rows: &[u32], text: u32, type_row: &[u32]) -> bool
    ensures { result ≡ each_kind (lacking rows.now text) (kinds_in type_row.now) }
{
    let mut found = [0u32; TYPE_WORDS];
    for &kind in kinds(type_row) {
        if !lacks(rows, &mut found, text, kind) {
            return false;
        }
    }
    true
}

// `has` of an attribute on a record type.
fn record_rule(rows: &[u32], text: u32, ty: u32) -> Option<bool>
    ensures { rule_in result ≡ record_rule rows.now text ty }
{
    attribute(rows, ty, text).is_none().then_some(false)
}

// `has` of an attribute on a type.
pub fn has_rule(rows: &[u32], text: u32, ty: u32) -> Option<bool>
    ensures { rule_in result ≡ has_rule (schema_at rows.now) text (ty_at rows.now ty) }
{
    let q = row(rows, TYPE, ty);
    if tag(q) == ENTITY_TYPE {
        return each_lacks(rows, text, q).then_some(false);
    }
    record_rule(rows, text, record_of(rows, ty)?)
}
