// What a node does once its operands are worked. They are the log's blocks from `start` on, and what stands for them begins at `start`.
// A node goes by its tag, which its caller has read; its row is read here.
ghost use Rattle.std.specs.Prelude.{◌≡◌, ◌||◌, [], ◌+◌, ◌≤◌, ◌<◌, get_or, take, drop, length};
ghost use Rattle.words.specs.Log.{part, appended, Room};
ghost use Rattle.sheet.specs.Forms.{partial, items, at, CONTEXT, NODE};
ghost use Rattle.cedar.specs.Numbered.{stays};
ghost use Rattle.cedar.specs.Interpret.{alone};
ghost use Rattle.cedar.specs.TypeRules.{has_rule};
ghost use Rattle.sheet.specs.Content.{var_of, entity_given, rows_in};
ghost use Rattle.table.specs.Layout.{rows_of};
ghost use Rattle.value.specs.Lines.{value_lines};
ghost use Rattle.value.specs.Made.{long_row, MadeBeside};
ghost use Rattle.value.specs.Clear.{Clear};
ghost use Rattle.residual.specs.Rows.{lit_row, stage_at, word_at};
ghost use Rattle.residual.specs.Errs.{errs};
ghost use Rattle.rules.specs.Rules.{rule_in, schema_at};
ghost use Rattle.strict.specs.Gives.{out_of};
ghost use Rattle.tpe.specs.Run.{left, left_of, made_of, settle_of, walk_from, entity_type, var_for, env_in, unmoved_of, stuck_of, walked_of, path_of};
ghost use Rattle.residual.specs.Logs.{held};
ghost use Rattle.tpe.specs.Leaves.{Ends};
ghost use Rattle.tpe.specs.Joins.{join_in, join_at};
ghost use Rattle.tpe.specs.Steps.{one_at, two_at, many_at};
ghost use Rattle.tpe.specs.Gives.{context_given, many_row, one_give, one_rule, two_give, two_rule, out_one, out_two, Tells, unless_err, rule_or, walk_in, Taken};

use crate::give_bool;
use forms::{
    ACTION, ALL, CONTAINS, CONTEXT, ENTITY_TYPE, EQ, GET, GETTAG, HAS, HASPATH, HASTAG, IN, IS,
    LIKE, MARK, MUL, NEG, NODE, NOT, PART_A, PART_P, PART_R, PRINCIPAL, RESOURCE, SET_OF, TYPE,
};
use residual::{Log, Stage};
use rules::{eq_rule, has_kind_rule, has_rule, hastag_rule, in_rule, is_rule};
use strict::entity::{get_of, gettag_of, has_of, hastag_of, in_of};
use strict::{
    Given, all_of, any_of, arith_of, contains_of, empty_of, eq_of, is_of, like_of, neg_of, not_of,
};
use table::{base_of, count, item, row};
use value::making::{make_entity, make_long, make_record, make_set};
use walk::{Walked, walk};
use words::read;

// How far the children of a set or record are worked: all are values, one is an error, or else one is open.
#[derive(Clone, Copy, PartialEq, Eq)]
pub enum Joined {
    Values,
    Error,
    Open,
}

// The numbers of these.
pub const ALL_VALUES: u32 = 0;

pub const SOME_ERROR: u32 = 1;

pub const SOME_OPEN: u32 = 2;

// How far by its number: any but those of values and of an error is that of an open one.
impl From<u32> for Joined {
    ghost from_gives = { λ number joined. join_in joined ≡ join_at number };

    fn from(number: u32) -> Joined {
        match number {
            ALL_VALUES => Joined::Values,
            SOME_ERROR => Joined::Error,
            _ => Joined::Open,
        }
    }
}

// The type of a node.
fn type_of(rows: &[u32], node: u32) -> u32
    ensures { result ≡ at (get_or (rows_of rows.now NODE) node []) 0 }
{
    item(row(rows, NODE, node), 1)
}

// A long found or made, as a value of type `ty` in the place of the blocks from `start` on.
fn give_long(rows: &mut [u32], log: &mut Log, start: usize, word: u64, ty: u32)
    requires { start ≤ log.old.top }
    ensures { Ends start log.old rows.new log.new (made_of rows.old (take start log.old.words.now) ty (long_row word)) }
{
    let v = make_long(rows, word);
    log.push_value(start, v, ty);
}

// What an operation gives, in the place of the operands; the node stays where it gives nothing yet.
fn settle(
    skip: usize,
    rows: &mut [u32],
    log: &mut Log,
    start: usize,
    node: u32,
    ty: u32,
    given: Given,
)
    requires start_le_top { start ≤ log.old.top }
    requires clear { Clear rows.old skip }
    ensures { Ends start log.old rows.new log.new (settle_of rows.old (held log.old) start node ty (out_of given)) }
{
    match given {
        Given::Bool(x) => give_bool(skip, rows, log, start, x, ty),
        Given::Long(w) => give_long(rows, log, start, w, ty),
        Given::Old(v) => log.push_value(start, v, ty),
        Given::Fails => log.push_error(start, ty),
        Given::Stays => log.push_left(start, node, 0, ty),
    }
}

// The entity of the request's line of this key, at a node; the node stays where it is unknown.
fn known_entity(rows: &mut [u32], log: &mut Log, node: u32, ty: u32, key: usize)
    ensures { Ends log.old.top log.old rows.new log.new (var_for partial [] rows.old (held log.old) node ty (entity_given (get_or (rows_of rows.old key) 0 []))) }
{
    let line = row(rows, key, 0);
    let kind = item(line, 1);
    let text = item(line, 2);
    if text == MARK {
        log.push_left(log.top, node, 0, ty);
        return;
    }
    let v = make_entity(rows, kind, text);
    log.push_value(log.top, v, ty);
}

// The context of the request at a node, which stays where the context is unknown.
fn known_context(rows: &[u32], log: &mut Log, node: u32, ty: u32)
    ensures { Ends log.old.top log.old rows.now log.new (var_for partial [] rows.now (held log.old) node ty (context_given (get_or (rows_of rows.now CONTEXT) 0 []))) }
{
    let v = item(row(rows, CONTEXT, 0), 2);
    if v == MARK {
        log.push_left(log.top, node, 0, ty);
        return;
    }
    log.push_value(log.top, v, ty);
}

// The part of the request that a letter names, at a node of type `ty`.
pub fn var(rows: &mut [u32], log: &mut Log, node: u32, ty: u32, letter: u32)
    ensures { Ends log.old.top log.old rows.new log.new (var_for partial [] rows.old (held log.old) node ty ((env_in partial [] rows.old).request (var_of letter))) }
{
    match letter {
        PART_P => known_entity(rows, log, node, ty, PRINCIPAL),
        PART_A => known_entity(rows, log, node, ty, ACTION),
        PART_R => known_entity(rows, log, node, ty, RESOURCE),
        _ => known_context(rows, log, node, ty),
    }
}

// The set or the record, by its tag, of the values of a node, whose blocks are those from `start` to `top`.
fn make_many(
    rows: &mut [u32],
    words: &mut [u32],
    start: usize,
    top: usize,
    node: u32,
    tag: u32,
) -> u32
    requires room { Room words.old top }
    requires start_le_top { start ≤ top }
    ensures { MadeBeside rows.old rows.new result top words.old words.new (many_row tag (get_or (rows_of rows.old NODE) node []) (part words.old start top)) }
{
    if tag <= SET_OF {
        return make_set(rows, words, start, top);
    }
    make_record(rows, words, start, top, node)
}

// The set or record of a node, by its tag and by how far its children are worked.
pub fn many(rows: &mut [u32], log: &mut Log, start: usize, node: u32, tag: u32, joined: Joined)
    requires start_le_top { start ≤ log.old.top }
    ensures { Ends start log.old rows.new log.new (many_at partial [] tag start node (get_or (rows_of rows.old NODE) node []) (record { words = rows.old; log = held log.old; join = join_in joined })) }
{
    let ty = type_of(rows, node);
    match joined {
        Joined::Values => {
            let v = make_many(rows, log.words, start, log.top, node, tag);
            log.push_value(start, v, ty);
        }
        Joined::Error => log.push_error(start, ty),
        Joined::Open => log.push_left(start, node, 0, ty),
    }
}

// The same, told by a number how far its children are worked.
pub fn many_by_number(
    rows: &mut [u32],
    log: &mut Log,
    start: usize,
    node: u32,
    tag: u32,
    joined: u32,
)
    requires start_le_top { start ≤ log.old.top }
    ensures { Ends start log.old rows.new log.new (many_at partial [] tag start node (get_or (rows_of rows.old NODE) node []) (record { words = rows.old; log = held log.old; join = joined })) }
{
    many(rows, log, start, node, tag, Joined::from(joined));
}

// What a rule says, where the operand that ends at `end` cannot err.
fn unless_err(rows: &[u32], log: &Log, end: usize, rule: Option<bool>) -> Option<bool>
    ensures { rule_in result ≡ unless_err (errs (rows_of rows.now NODE) log.now.words.now end) (rule_in rule) }
{
    let said = rule?;
    if log.can_error(rows, end) {
        return None;
    }
    Some(said)
}

// ---- one operand

// The texts of a node's row, after its type and its operand.
fn texts(line: &[u32]) -> &[u32]
    ensures { result.now ≡ drop 2 (items line.now) }
{
    if line.len() < 3 {
        return &line[0..0];
    }
    &line[3..]
}

// What the operation of a node gives on a value.
fn give_one(sheet: &[u8], rows: &[u32], node: u32, tag: u32, value: u32) -> Given
    ensures { out_of result ≡ one_give sheet.now tag rows.now (get_or (rows_of rows.now NODE) node []) value }
{
    let r = row(rows, NODE, node);
    let x = item(r, 3);
    if tag <= IS {
        return is_of(rows, value, x);
    }
    match tag {
        LIKE => like_of(sheet, rows, value, texts(r)),
        GET => get_of(rows, false, value, x),
        HAS => has_of(rows, false, value, x),
        NOT => not_of(rows, value),
        NEG => neg_of(rows, value),
        _ => empty_of(rows, value),
    }
}

// What the type rule of a node says of an operand of type `ty`.
fn rule_one(rows: &[u32], node: u32, tag: u32, ty: u32) -> Option<bool>
    ensures { rule_in result ≡ one_rule tag rows.now (get_or (rows_of rows.now NODE) node []) ty }
{
    let x = item(row(rows, NODE, node), 3);
    if tag <= IS {
        return is_rule(rows, x, ty);
    }
    if tag == HAS {
        return has_rule(rows, x, ty);
    }
    None
}

// The same for the operand, the last block, where it cannot err.
fn ruled_one(rows: &[u32], log: &Log, node: u32, tag: u32) -> Option<bool>
    ensures { rule_in result ≡ unless_err (errs (rows_of rows.now NODE) log.now.words.now log.now.top) (one_rule tag rows.now (get_or (rows_of rows.now NODE) node []) (word_at log.now.words.now log.now.top 3)) }
{
    let q = rule_one(rows, node, tag, log.type_at(log.top));
    unless_err(rows, log, log.top, q)
}

// What a node gives by its operand alone.
fn given_one(sheet: &[u8], rows: &[u32], log: &Log, node: u32, tag: u32) -> Given
    ensures { out_of result ≡ out_one (one_give sheet.now tag rows.now (get_or (rows_of rows.now NODE) node [])) (stage_at log.now.words.now log.now.top) }
{
    match log.stage() {
        Stage::Value(v) => give_one(sheet, rows, node, tag, v),
        Stage::Error => Given::Fails,
        Stage::Open => Given::Stays,
    }
}

// What its type rule says, or else what it gives.
fn asked_one(sheet: &[u8], rows: &[u32], log: &Log, node: u32, tag: u32) -> Given
    ensures { out_of result ≡ rule_or (unless_err (errs (rows_of rows.now NODE) log.now.words.now log.now.top) (one_rule tag rows.now (get_or (rows_of rows.now NODE) node []) (word_at log.now.words.now log.now.top 3))) (out_one (one_give sheet.now tag rows.now (get_or (rows_of rows.now NODE) node [])) (stage_at log.now.words.now log.now.top)) }
{
    match ruled_one(rows, log, node, tag) {
        Some(x) => Given::Bool(x),
        None => given_one(sheet, rows, log, node, tag),
    }
}

// ---- a path

// The number of the type line of a kind alone, or of all types where there is none.
fn entity_type(rows: &[u32], kind: u32) -> u32
    ensures { result ≡ entity_type rows.now kind }
{
    let line = [ENTITY_TYPE, kind];
    let n = count(rows, TYPE);
    for i in 0..n {
        if row(rows, TYPE, i) == &line[..] {
            return i;
        }
    }
    n
}

// The path of a node from a value on; an unlisted entity is unknown.
fn walked(rows: &[u32], node: u32, value: u32) -> Walked
    ensures { walk_in result ≡ walk_from (env_in partial [] rows.now) (rows_in (value_lines rows.now)) (drop 3 (items (get_or (rows_of rows.now NODE) node []))) (at (get_or (rows_of rows.now NODE) node []) 2) value 0 }
{
    let l = texts(row(rows, NODE, node));
    if l.len() == 0 {
        return walk(rows, false, value, &[0]);
    }
    walk(rows, false, value, l)
}

// The steps taken, as a word: each has a word of the row, whose end is said by one.
fn taken(rows: &[u32], node: u32, steps: usize) -> u32
    ensures { Taken (length (get_or (rows_of rows.now NODE) node [])) steps result }
{
    let end = read(rows, base_of(NODE) + node as usize + 1);
    if end < 2 {
        return 0;
    }
    if steps >= (end - 2) as usize {
        return 0;
    }
    steps as u32
}

// A node after some steps, over `value`, an entity of this kind.
fn push_rest(
    rows: &[u32],
    log: &mut Log,
    start: usize,
    node: u32,
    ty: u32,
    steps: u32,
    value: u32,
    kind: u32,
)
    requires start_le_top { start ≤ log.old.top }
    requires steps_bound { steps < 4294967294 }
    ensures { Ends start log.old rows.now log.new (left_of rows.now (appended (take start log.old.words.now) (lit_row value (entity_type rows.now kind))) (length (take start log.old.words.now)) node steps ty) }
{
    log.push_value(start, value, entity_type(rows, kind));
    log.push_left(start, node, steps, ty);
}

// A path stuck after some steps at `value`, an entity of this kind. The type rule decides by the next step.
fn stuck(
    skip: usize,
    rows: &mut [u32],
    log: &mut Log,
    start: usize,
    node: u32,
    steps: u32,
    value: u32,
    kind: u32,
)
    requires start_le_top { start ≤ log.old.top }
    requires steps_bound { steps < 4294967294 }
    requires clear { Clear rows.old skip }
    ensures { Ends start log.old rows.new log.new (stuck_of partial [] rows.old (take start log.old.words.now) node (get_or (rows_of rows.old NODE) node []) steps value kind (has_rule (schema_at rows.old) (at (get_or (rows_of rows.old NODE) node []) (2 + steps)) (alone kind))) }
{
    let r = row(rows, NODE, node);
    let ty = item(r, 1);
    match has_kind_rule(rows, item(r, 3 + steps as usize), kind) {
        Some(x) => give_bool(skip, rows, log, start, x, ty),
        None => push_rest(rows, log, start, node, ty, steps, value, kind),
    }
}

// What a rule says; a node stays where it says nothing.
fn said(rule: Option<bool>) -> Given
    ensures { out_of result ≡ rule_or (rule_in rule) stays }
{
    rule.map_or(Given::Stays, Given::Bool)
}

// A path of which no step is taken: its operand stays. The type rule of its first step decides where the operand cannot err.
fn unmoved(skip: usize, rows: &mut [u32], log: &mut Log, start: usize, node: u32)
    requires start_le_top { start ≤ log.old.top }
    requires clear { Clear rows.old skip }
    ensures { Ends start log.old rows.new log.new (unmoved_of partial [] rows.old (held log.old) start node (get_or (rows_of rows.old NODE) node [])) }
{
    let given = said(ruled_one(rows, log, node, HAS));
    let ty = type_of(rows, node);
    settle(skip, rows, log, start, node, ty, given)
}

// A path from a value on, its operand. With no step taken the operand keeps its own type.
fn path_from(skip: usize, rows: &mut [u32], log: &mut Log, start: usize, node: u32, value: u32)
    requires start_le_top { start ≤ log.old.top }
    requires clear { Clear rows.old skip }
    ensures { Ends start log.old rows.new log.new (walked_of partial [] rows.old (held log.old) start node (get_or (rows_of rows.old NODE) node []) (walk_from (env_in partial [] rows.old) (rows_in (value_lines rows.old)) (drop 3 (items (get_or (rows_of rows.old NODE) node []))) (at (get_or (rows_of rows.old NODE) node []) 2) value 0)) }
{
    let ty = type_of(rows, node);
    match walked(rows, node, value) {
        Walked::Holds(x) => give_bool(skip, rows, log, start, x, ty),
        Walked::Fails => log.push_error(start, ty),
        Walked::Left(w, k, j) => {
            if j == 0 {
                return unmoved(skip, rows, log, start, node);
            }
            let i = taken(rows, node, j);
            stuck(skip, rows, log, start, node, i, w, k)
        }
    }
}

// Whether a node has its path from its operand on.
fn path(skip: usize, rows: &mut [u32], log: &mut Log, start: usize, node: u32)
    requires start_le_top { start ≤ log.old.top }
    requires clear { Clear rows.old skip }
    ensures { Ends start log.old rows.new log.new (path_of partial [] start node (get_or (rows_of rows.old NODE) node []) (left rows.old (held log.old))) }
{
    match log.stage() {
        Stage::Value(v) => path_from(skip, rows, log, start, node, v),
        Stage::Error => log.push_error(start, type_of(rows, node)),
        Stage::Open => unmoved(skip, rows, log, start, node),
    }
}

// An operation on one operand. Its type rule decides where the operand cannot err.
pub fn one(
    sheet: &[u8],
    skip: usize,
    rows: &mut [u32],
    log: &mut Log,
    start: usize,
    node: u32,
    tag: u32,
)
    requires start_le_top { start ≤ log.old.top }
    requires clear { Clear rows.old skip }
    ensures { Ends start log.old rows.new log.new (one_at partial sheet.now tag start node (get_or (rows_of rows.old NODE) node []) (left rows.old (held log.old))) }
{
    if tag == HASPATH {
        return path(skip, rows, log, start, node);
    }
    let given = asked_one(sheet, rows, log, node, tag);
    let ty = type_of(rows, node);
    settle(skip, rows, log, start, node, ty, given)
}

// ---- two operands

// What the operation gives on values `left` and `right`.
fn give_two(rows: &[u32], tag: u32, left: u32, right: u32) -> Given
    ensures { out_of result ≡ two_give tag rows.now left right }
{
    if tag <= EQ {
        return eq_of(left, right);
    }
    if tag <= MUL {
        return arith_of(rows, tag, left, right);
    }
    match tag {
        IN => in_of(rows, false, left, right),
        GETTAG => gettag_of(rows, false, left, right),
        HASTAG => hastag_of(rows, false, left, right),
        CONTAINS => contains_of(rows, left, right),
        ALL => all_of(rows, left, right),
        _ => any_of(rows, left, right),
    }
}

// What the type rule says of operands of types `left` and `right`.
fn rule_two(rows: &[u32], tag: u32, left: u32, right: u32) -> Option<bool>
    ensures { rule_in result ≡ two_rule tag rows.now left right }
{
    if tag <= EQ {
        return eq_rule(rows, left, right);
    }
    match tag {
        IN => in_rule(rows, left, right),
        HASTAG => hastag_rule(rows, left),
        _ => None,
    }
}

// The same for the operands that end at `mid` and the log's end, where neither can err.
fn ruled_two(rows: &[u32], log: &Log, mid: usize, tag: u32) -> Option<bool>
    ensures { rule_in result ≡ unless_err (errs (rows_of rows.now NODE) log.now.words.now mid || errs (rows_of rows.now NODE) log.now.words.now log.now.top) (two_rule tag rows.now (word_at log.now.words.now mid 3) (word_at log.now.words.now log.now.top 3)) }
{
    let q = rule_two(rows, tag, log.type_at(mid), log.type_at(log.top));
    unless_err(rows, log, mid, unless_err(rows, log, log.top, q))
}

// How far two operands are worked.
#[derive(Clone, Copy)]
pub enum Pair {
    Values(u32, u32),
    Error,
    Open,
}

// How far the operands are worked, of which the left one ends at `mid` and the right one is the last block: one that is an error is the result, also beside an open one.
#[tactic(auto, using(crate::proofs::Worked::tells))]
fn pair_at(log: &Log, mid: usize) -> Pair
    ensures { Tells result (stage_at log.now.words.now mid) (stage_at log.now.words.now log.now.top) }
{
    match (log.stage_at(mid), log.stage()) {
        (Stage::Value(v), Stage::Value(w)) => Pair::Values(v, w),
        (Stage::Error, _) | (_, Stage::Error) => Pair::Error,
        _ => Pair::Open,
    }
}

// What a node gives by its operands alone, the left of which ends at `mid`.
fn given_two(rows: &[u32], log: &Log, mid: usize, tag: u32) -> Given
    ensures { out_of result ≡ out_two (two_give tag rows.now) (stage_at log.now.words.now mid) (stage_at log.now.words.now log.now.top) }
{
    match pair_at(log, mid) {
        Pair::Values(v, w) => give_two(rows, tag, v, w),
        Pair::Error => Given::Fails,
        Pair::Open => Given::Stays,
    }
}

// What its type rule says, or else what it gives.
fn asked_two(rows: &[u32], log: &Log, mid: usize, tag: u32) -> Given
    ensures { out_of result ≡ rule_or (unless_err (errs (rows_of rows.now NODE) log.now.words.now mid || errs (rows_of rows.now NODE) log.now.words.now log.now.top) (two_rule tag rows.now (word_at log.now.words.now mid 3) (word_at log.now.words.now log.now.top 3))) (out_two (two_give tag rows.now) (stage_at log.now.words.now mid) (stage_at log.now.words.now log.now.top)) }
{
    match ruled_two(rows, log, mid, tag) {
        Some(x) => Given::Bool(x),
        None => given_two(rows, log, mid, tag),
    }
}

// An operation on two operands, the left of which ends at `mid`. Its type rule decides where neither can err.
pub fn two(
    skip: usize,
    rows: &mut [u32],
    log: &mut Log,
    start: usize,
    mid: usize,
    node: u32,
    tag: u32,
)
    requires start_le_mid { (start ≤ mid) × (mid ≤ log.old.top) }
    requires clear { Clear rows.old skip }
    ensures { Ends start log.old rows.new log.new (two_at partial [] tag start mid node (get_or (rows_of rows.old NODE) node []) (left rows.old (held log.old))) }
{
    let given = asked_two(rows, log, mid, tag);
    let ty = type_of(rows, node);
    settle(skip, rows, log, start, node, ty, given)
}
