// The complete run: what each policy yields on a complete sheet. Its definition over words is in specs/, what it means in proofs/.
// The log holds the numbers of the classes of the policies so far, then the rows of a set's or record's children until it is made. The first `skip` values
// of the sheet are no bools: a search for a bool begins after them.
#![tactic(auto)]

pub mod operands;

ghost use Rattle.std.specs.Prelude.{◌≡◌, [], ◌+◌, ◌*◌, ◌≤◌, ◌<◌, get_or, take, length};
ghost use Rattle.words.specs.Log.{Room};
ghost use Rattle.forms.specs.Tags.{EQ, IF, IS, SET_OF};
ghost use Rattle.sheet.specs.Content.{entity_given, var_of};
ghost use Rattle.table.specs.Layout.{rows_of};
ghost use Rattle.value.specs.Clear.{Clear};
ghost use Rattle.strict.specs.Gives.{out_of};
ghost use Rattle.tpe.specs.Classes.{class_in};
ghost use Rattle.lookup.specs.Lookups.{value_in};
ghost use Rattle.evaluator.specs.Run.{yields, node_in, settle_of, opt_of, bool_only, kids_of, env_of, one_out, two_out, lazy_step, if_step, one_step, two_step, set_step, rec_step, step_at, eval_in, class_of, run_of};
ghost use Rattle.evaluator.specs.Gave.{Gave, GaveBeside, Left, Done, truth_of, as_bool, yield_bool};

use crate::operands::{one_given, two_given, word_of};
use forms::{
    ACTION, AND, CONTEXT, ERR, IF, MARK, NODE, OR, PART_A, PART_P, PART_R, PRINCIPAL, RECORD_OF,
    RESOURCE, SET_OF, SLOT, VAR,
};
use residual::push_value;
use strict::Given;
use table::{RUN, count, item, row, tag};
use tpe::{Class, Setting};
use typing::links::slot_value;
use value::making::{clear_of, make_bool_after, make_entity, make_long, make_record, make_set};
use value::{Shape, row_of, shape_of};
use words::push;

// The levels of a tree.
const DEPTH: u32 = 64;

// The error of the definition: a node that yields no value. It says no more than that.
#[derive(Clone, Copy, Debug, PartialEq, Eq)]
pub struct EvalError;

// What a node yields: a value, by its number, or the error.
pub type Yield = Result<u32, EvalError>;

// What a value says as a bool, if it is one.
pub fn as_bool(rows: &[u32], value: u32) -> Option<bool>
    ensures { truth_of result ≡ as_bool (value_in rows.now value) }
{
    match shape_of(row_of(rows, value as usize)) {
        Shape::Bool(x) => Some(x),
        _ => None,
    }
}

// What a yield says as a bool.
pub fn truth_of(rows: &[u32], yielded: Yield) -> Option<bool>
    ensures { truth_of result ≡ yield_bool rows.now yielded }
{
    as_bool(rows, yielded.ok()?)
}

// A bool as it is; any other value is an error.
pub fn only_bool(rows: &[u32], yielded: Yield) -> Yield
    ensures { Gave (bool_only (yields rows.now yielded)) rows.now result }
{
    let value = yielded?;
    match as_bool(rows, value) {
        Some(_) => Ok(value),
        None => Err(EvalError),
    }
}

// What an operation gives, as a value: found, or made where it is absent. Nothing is unknown on a complete sheet.
pub fn settle(skip: usize, rows: &mut [u32], given: Given) -> Yield
    requires { Clear rows.old skip }
    ensures { Gave (settle_of rows.old (out_of given)) rows.new result }
{
    match given {
        Given::Bool(x) => Ok(make_bool_after(rows, skip, x)),
        Given::Long(word) => Ok(make_long(rows, word)),
        Given::Old(value) => Ok(value),
        Given::Fails | Given::Stays => Err(EvalError),
    }
}

// The entity that a line of the request says.
fn entity_of(rows: &mut [u32], key: usize) -> Yield
    ensures { Gave (opt_of rows.old (entity_given (get_or (rows_of rows.old key) 0 []))) rows.new result }
{
    let line = row(rows, key, 0);
    let kind = item(line, 1);
    let text = item(line, 2);
    if text == MARK {
        return Err(EvalError);
    }
    Ok(make_entity(rows, kind, text))
}

// A part of the request, by its letter.
pub fn request(rows: &mut [u32], letter: u32) -> Yield
    ensures { Gave (opt_of rows.old ((env_of rows.old).request (var_of letter))) rows.new result }
{
    match letter {
        PART_P => entity_of(rows, PRINCIPAL),
        PART_A => entity_of(rows, ACTION),
        PART_R => entity_of(rows, RESOURCE),
        _ => {
            let value = item(row(rows, CONTEXT, 0), 2);
            if value == MARK {
                return Err(EvalError);
            }
            Ok(value)
        }
    }
}

// What the operation of the node, by its tag, yields over the value.
pub fn apply_one(
    sheet: &[u8],
    skip: usize,
    rows: &mut [u32],
    node: u32,
    tag: u32,
    value: u32,
) -> Yield
    requires le_tag { (IS ≤ tag) × (tag < SET_OF) }
    requires clear { Clear rows.old skip }
    ensures { Gave (settle_of rows.old (one_out sheet.now tag rows.old (node_in rows.old node) value)) rows.new result }
{
    let given = one_given(sheet, rows, node, tag, value);
    settle(skip, rows, given)
}

// What the operation by the tag yields over two values.
pub fn apply_two(skip: usize, rows: &mut [u32], tag: u32, left: u32, right: u32) -> Yield
    requires le_tag { (EQ ≤ tag) × (tag < IF) }
    requires clear { Clear rows.old skip }
    ensures { Gave (settle_of rows.old (two_out tag rows.old left right)) rows.new result }
{
    let given = two_given(rows, tag, left, right);
    settle(skip, rows, given)
}

// The node, of which `depth` levels are seen, beside the log that ends at `top`.
#[cycle(branch_eval_kids_lazy_one_record_set_step_two)]
fn eval(
    setting: &Setting,
    rows: &mut [u32],
    log: &mut [u32],
    top: usize,
    node: u32,
    depth: u32,
) -> Yield
    requires room { Room log.old top }
    requires clear { Clear rows.old setting.now.skip }
    ensures { GaveBeside (eval_in setting.now depth rows.old (take top log.old) node) rows.new result top log.old log.new }
{
    if depth == 0 {
        return Err(EvalError);
    }
    let tag = tag(row(rows, NODE, node));
    step(setting, rows, log, top, node, tag, depth - 1)
}

// The same by the node's tag; its operands are seen to `depth` levels.
#[cycle(branch_eval_kids_lazy_one_record_set_step_two)]
fn step(
    setting: &Setting,
    rows: &mut [u32],
    log: &mut [u32],
    top: usize,
    node: u32,
    tag: u32,
    depth: u32,
) -> Yield
    requires room { Room log.old top }
    requires clear { Clear rows.old setting.now.skip }
    ensures { GaveBeside (step_at setting.now.sheet.now setting.now.principal setting.now.resource tag (eval_in setting.now depth) rows.old (take top log.old) node (node_in rows.old node)) rows.new result top log.old log.new }
{
    match tag {
        ERR => Err(EvalError),
        VAR => request(rows, word_of(rows, node, 2)),
        AND => lazy(setting, rows, log, top, node, false, depth),
        OR => lazy(setting, rows, log, top, node, true, depth),
        IF => branch(setting, rows, log, top, node, depth),
        SET_OF => set(setting, rows, log, top, node, depth),
        RECORD_OF => record(setting, rows, log, top, node, depth),
        SLOT => Ok(slot_value(setting.principal, setting.resource, word_of(rows, node, 2))),
        _ => {
            if tag < ERR {
                return Ok(word_of(rows, node, 2));
            }
            if tag < IF {
                return two(setting, rows, log, top, node, tag, depth);
            }
            if tag < SET_OF {
                return one(setting, rows, log, top, node, tag, depth);
            }
            Err(EvalError)
        }
    }
}

// `and` or `or`: `stop` is the bool that decides. The right side is worked where the left one does not decide.
#[cycle(branch_eval_kids_lazy_one_record_set_step_two)]
fn lazy(
    setting: &Setting,
    rows: &mut [u32],
    log: &mut [u32],
    top: usize,
    node: u32,
    stop: bool,
    depth: u32,
) -> Yield
    requires room { Room log.old top }
    requires clear { Clear rows.old setting.now.skip }
    ensures { GaveBeside (lazy_step stop (eval_in setting.now depth) rows.old (take top log.old) node (node_in rows.old node)) rows.new result top log.old log.new }
{
    let right = word_of(rows, node, 3);
    let left = eval(setting, rows, log, top, word_of(rows, node, 2), depth);
    let x = truth_of(rows, left).ok_or(EvalError)?;
    if x == stop {
        return Ok(make_bool_after(rows, setting.skip, stop));
    }
    let r = eval(setting, rows, log, top, right, depth);
    only_bool(rows, r)
}

// `if`: one branch is worked.
#[cycle(branch_eval_kids_lazy_one_record_set_step_two)]
fn branch(
    setting: &Setting,
    rows: &mut [u32],
    log: &mut [u32],
    top: usize,
    node: u32,
    depth: u32,
) -> Yield
    requires room { Room log.old top }
    requires clear { Clear rows.old setting.now.skip }
    ensures { GaveBeside (if_step (eval_in setting.now depth) rows.old (take top log.old) node (node_in rows.old node)) rows.new result top log.old log.new }
{
    let then = word_of(rows, node, 3);
    let other = word_of(rows, node, 4);
    let test = eval(setting, rows, log, top, word_of(rows, node, 2), depth);
    let x = truth_of(rows, test).ok_or(EvalError)?;
    if x {
        return eval(setting, rows, log, top, then, depth);
    }
    eval(setting, rows, log, top, other, depth)
}

// An operation with one operand.
#[cycle(branch_eval_kids_lazy_one_record_set_step_two)]
fn one(
    setting: &Setting,
    rows: &mut [u32],
    log: &mut [u32],
    top: usize,
    node: u32,
    tag: u32,
    depth: u32,
) -> Yield
    requires room { Room log.old top }
    requires le_tag { (IS ≤ tag) × (tag < SET_OF) }
    requires clear { Clear rows.old setting.now.skip }
    ensures { GaveBeside (one_step (one_out setting.now.sheet.now tag) (eval_in setting.now depth) rows.old (take top log.old) node (node_in rows.old node)) rows.new result top log.old log.new }
{
    let value = eval(setting, rows, log, top, word_of(rows, node, 2), depth)?;
    apply_one(setting.sheet, setting.skip, rows, node, tag, value)
}

// An operation with two operands: the right one is worked where the left one is a value.
#[cycle(branch_eval_kids_lazy_one_record_set_step_two)]
fn two(
    setting: &Setting,
    rows: &mut [u32],
    log: &mut [u32],
    top: usize,
    node: u32,
    tag: u32,
    depth: u32,
) -> Yield
    requires room { Room log.old top }
    requires le_tag { (EQ ≤ tag) × (tag < IF) }
    requires clear { Clear rows.old setting.now.skip }
    ensures { GaveBeside (two_step (two_out tag) (eval_in setting.now depth) rows.old (take top log.old) node (node_in rows.old node)) rows.new result top log.old log.new }
{
    let right = word_of(rows, node, 3);
    let first = eval(setting, rows, log, top, word_of(rows, node, 2), depth)?;
    let second = eval(setting, rows, log, top, right, depth)?;
    apply_two(setting.skip, rows, tag, first, second)
}

// The children of the node from word `i` of its row on, every `step`-th word of it, `most` of them at most: a row for each value.
#[cycle(branch_eval_kids_lazy_one_record_set_step_two)]
fn kids(
    setting: &Setting,
    rows: &mut [u32],
    log: &mut [u32],
    top: usize,
    node: u32,
    step: usize,
    i: usize,
    most: u32,
    depth: u32,
) -> Result<usize, EvalError>
    requires room { Room log.old top }
    requires step_bound { (step ≤ 2) × (i + 2 * most ≤ 65536) }
    requires clear { Clear rows.old setting.now.skip }
    ensures { Left (kids_of (eval_in setting.now depth) node step most i rows.old (take top log.old)) rows.new result top log.old log.new }
{
    if most == 0 {
        return Ok(top);
    }
    if i >= row(rows, NODE, node).len() {
        return Ok(top);
    }
    let value = eval(setting, rows, log, top, word_of(rows, node, i), depth)?;
    let end = push_value(log, top, value, 0);
    kids(
        setting,
        rows,
        log,
        end,
        node,
        step,
        i + step,
        most - 1,
        depth,
    )
}

// A set is made of its children, where all are values.
#[cycle(branch_eval_kids_lazy_one_record_set_step_two)]
fn set(
    setting: &Setting,
    rows: &mut [u32],
    log: &mut [u32],
    top: usize,
    node: u32,
    depth: u32,
) -> Yield
    requires room { Room log.old top }
    requires clear { Clear rows.old setting.now.skip }
    ensures { GaveBeside (set_step (eval_in setting.now depth) rows.old (take top log.old) node (node_in rows.old node)) rows.new result top log.old log.new }
{
    let end = kids(setting, rows, log, top, node, 1, 2, 16384, depth)?;
    Ok(make_set(rows, log, top, end))
}

// A record likewise.
#[cycle(branch_eval_kids_lazy_one_record_set_step_two)]
fn record(
    setting: &Setting,
    rows: &mut [u32],
    log: &mut [u32],
    top: usize,
    node: u32,
    depth: u32,
) -> Yield
    requires room { Room log.old top }
    requires clear { Clear rows.old setting.now.skip }
    ensures { GaveBeside (rec_step (eval_in setting.now depth) rows.old (take top log.old) node (node_in rows.old node)) rows.new result top log.old log.new }
{
    let end = kids(setting, rows, log, top, node, 2, 3, 16384, depth)?;
    Ok(make_record(rows, log, top, end, node))
}

// A policy's class; a value that is no bool leaves it open.
pub fn class_of(rows: &[u32], yielded: Yield) -> Class
    ensures { class_in result ≡ class_of rows.now yielded }
{
    match yielded {
        Ok(value) => tpe::class_of(rows, value),
        Err(_) => Class::Error,
    }
}

// Runs the policies of the sheet that `rows` hold, in order, and leaves the numbers of their classes in `log`; how many there are.
pub fn run(sheet: &[u8], rows: &mut [u32], log: &mut [u32]) -> usize
    requires { 16384 ≤ length log.old }
    ensures { Done (run_of sheet.now rows.old) rows.new log.new result }
{
    let skip = clear_of(rows);
    let mut end = 0;
    for i in 0..count(rows, RUN) {
        let policy = row(rows, RUN, i);
        let root = item(policy, 3);
        let setting = Setting {
            sheet,
            principal: item(policy, 4),
            resource: item(policy, 5),
            skip,
        };
        let yielded = eval(&setting, rows, log, end, root, DEPTH);
        end = push(log, end, class_of(rows, yielded).into());
    }
    end
}
