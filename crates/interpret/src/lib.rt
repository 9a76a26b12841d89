// The interpreter of policies, `Evaluator::interpret`: a cycle of calls over the nodes of a tree, of which no more than 64 levels are
// taken. A node leaves one block more on the `log`; what is made joins the values in `rows`. Of these the first `skip` are no bools: a search for a bool
// begins after them.
#![tactic(auto)]

ghost use Rattle.std.specs.Prelude.{◌≡◌, [], ◌+◌, ◌-◌, ◌/◌, ◌≤◌, ◌<◌, length};
ghost use Rattle.forms.specs.Tags.{AND, SET_OF};
ghost use Rattle.sheet.specs.Forms.{partial};
ghost use Rattle.value.specs.Clear.{Clear};
ghost use Rattle.residual.specs.Rows.{ROW, stage_at};
ghost use Rattle.tpe.specs.Run.{left, side_of, class_by, class_of, join_of, second_of, split_of, interp_of, run_of};
ghost use Rattle.residual.specs.Logs.{held};
ghost use Rattle.tpe.specs.Leaves.{Leaves, Ends};
ghost use Rattle.tpe.specs.Classes.{class_in};
ghost use Rattle.tpe.specs.Joins.{join_in};
ghost use Rattle.interpret.specs.Sides.{side_in};
ghost use Rattle.interpret.specs.Nodes.{step_by, slot_of, leaf_of, first_in, branch_in, pair_in, group_of, ended};
ghost use Rattle.interpret.specs.Lines.{lines_of};

use forms::{AND, EQ, ERR, IF, IS, NODE, OR, RECORD_OF, SET_OF, SLOT, VAR};
use residual::{Log, ROW, Stage, start_at};
use table::{RUN, count, item, row, tag};
use tpe::steps::{Joined, many, one, two, var};
use tpe::{Class, Setting, class_at, decided, give_bool};
use typing::links::slot_value;
use value::making::clear_of;
use words::{ROOM, put};

// The levels of a tree.
const DEPTH: u32 = 64;

// The words of `log` where the policies' classes and root numbers stand.
pub const CLASSES: usize = 8192;

pub const ROOTS: usize = 8256;

// What a side of `and` or `or` says: it decides, it passes, it is an error, or it is open.
#[derive(Clone, Copy)]
pub enum Side {
    Stops,
    Goes,
    Wrong,
    Unsure,
}

// The class of the last block.
fn last_class(rows: &[u32], log: &Log) -> Class
    ensures { class_in result ≡ class_by rows.now (stage_at log.now.words.now log.now.top) }
{
    class_at(rows, log.words, log.top)
}

// What the last block says, where the bool `stop` decides.
#[tactic(auto, using(crate::proofs::Laws::class_held))]
fn side_at(rows: &[u32], log: &Log, stop: bool) -> Side
    ensures { side_in result ≡ side_of stop (class_of rows.now (held log.now)) }
{
    match (last_class(rows, log), stop) {
        (Class::True, true) | (Class::False, false) => Side::Stops,
        (Class::True, false) | (Class::False, true) => Side::Goes,
        (Class::Error, _) => Side::Wrong,
        (Class::Open, _) => Side::Unsure,
    }
}

// Whether all children so far are values, one is an error, or else one is open, with the last block.
#[tactic(auto, using(crate::proofs::Laws::last_held), unfolding(tpe::specs::Run::join_of))]
fn join(log: &Log, joined: Joined) -> Joined
    ensures { join_in result ≡ join_of (join_in joined) (stage_at (held log.now) (length (held log.now))) }
{
    match (log.stage(), joined) {
        (Stage::Value(_), _) => joined,
        (Stage::Error, _) | (_, Joined::Error) => Joined::Error,
        _ => Joined::Open,
    }
}

// A node without operands: a value, the request's part, or an error.
fn leaf(rows: &mut [u32], log: &mut Log, node: u32, tag: u32)
    ensures { Ends log.old.top log.old rows.new log.new (leaf_of partial [] tag rows.old (held log.old) node) }
{
    let line = row(rows, NODE, node);
    let ty = item(line, 1);
    let x = item(line, 2);
    if tag < ERR {
        log.push_value(log.top, x, ty);
        return;
    }
    if tag == VAR {
        var(rows, log, node, ty, x);
        return;
    }
    log.push_error(log.top, ty);
}

// A slot: that one of the link's values which stands for it.
fn slot(setting: &Setting, rows: &[u32], log: &mut Log, node: u32)
    ensures { Ends log.old.top log.old rows.now log.new (slot_of partial [] setting.now.principal setting.now.resource rows.now (held log.old) node) }
{
    let line = row(rows, NODE, node);
    let value = slot_value(setting.principal, setting.resource, item(line, 2));
    log.push_value(log.top, value, item(line, 1));
}

// Beside an open left side, which ends at `mid`, the right side of the node is worked.
fn beside(
    skip: usize,
    rows: &mut [u32],
    log: &mut Log,
    start: usize,
    mid: usize,
    node: u32,
    stop: bool,
    ty: u32,
)
    requires start_le_mid { (start ≤ mid) × (mid ≤ log.old.top) }
    requires clear { Clear rows.old skip }
    ensures { Ends start log.old rows.new log.new (second_of stop start node ty mid (left rows.old (held log.old))) }
{
    match side_at(rows, log, stop) {
        Side::Stops => decided(skip, rows, log, start, mid, node, stop, ty),
        Side::Goes => log.cut(mid),
        Side::Wrong => log.push_left(start, node, 0, ty),
        Side::Unsure => log.push_left(start, node, 0, ty),
    }
}

// ---- the cycle of calls

// The node, to `depth` levels, as a block more.
#[cycle(branch_first_group_interpret_operation_pair_second_split)]
pub fn interpret(setting: &Setting, rows: &mut [u32], log: &mut Log, node: u32, depth: u32)
    requires { Clear rows.old setting.now.skip }
    ensures { Ends log.old.top log.old rows.new log.new (interp_of partial setting.now.sheet.now setting.now.principal setting.now.resource depth rows.old (held log.old) node) }
{
    if depth == 0 {
        log.push_error(log.top, 0);
        return;
    }
    let tag = tag(row(rows, NODE, node));
    if tag < AND {
        leaf(rows, log, node, tag);
        return;
    }
    if tag < SET_OF {
        operation(setting, rows, log, node, tag, depth - 1);
        return;
    }
    match tag {
        SET_OF => group(setting, rows, log, node, tag, 1, depth - 1),
        RECORD_OF => group(setting, rows, log, node, tag, 2, depth - 1),
        SLOT => slot(setting, rows, log, node),
        _ => leaf(rows, log, node, tag),
    }
}

// An operation of which one operand is always worked, its first.
#[cycle(branch_first_group_interpret_operation_pair_second_split)]
fn operation(setting: &Setting, rows: &mut [u32], log: &mut Log, node: u32, tag: u32, depth: u32)
    requires le_tag { (AND ≤ tag) × (tag < SET_OF) }
    requires clear { Clear rows.old setting.now.skip }
    ensures { Ends log.old.top log.old rows.new log.new (step_by partial setting.now.sheet.now setting.now.principal setting.now.resource tag (interp_of partial setting.now.sheet.now setting.now.principal setting.now.resource depth) rows.old (held log.old) node) }
{
    let start = log.top;
    let left = item(row(rows, NODE, node), 2);
    interpret(setting, rows, log, left, depth);
    if tag < EQ {
        first(setting, rows, log, start, node, tag == OR, depth);
        return;
    }
    if tag < IF {
        pair(setting, rows, log, start, node, tag, depth);
        return;
    }
    if tag < IS {
        branch(setting, rows, log, start, node, depth);
        return;
    }
    one(setting.sheet, setting.skip, rows, log, start, node, tag);
}

// `and` and `or`, where the bool `stop` decides: the left side is worked, the block from `start` on.
#[cycle(branch_first_group_interpret_operation_pair_second_split)]
fn first(
    setting: &Setting,
    rows: &mut [u32],
    log: &mut Log,
    start: usize,
    node: u32,
    stop: bool,
    depth: u32,
)
    requires start_le_top { start ≤ log.old.top }
    requires clear { Clear rows.old setting.now.skip }
    ensures { Ends start log.old rows.new log.new (first_in stop (interp_of partial setting.now.sheet.now setting.now.principal setting.now.resource depth) start node (left rows.old (held log.old))) }
{
    let line = row(rows, NODE, node);
    let ty = item(line, 1);
    let right = item(line, 3);
    match side_at(rows, log, stop) {
        Side::Stops => give_bool(setting.skip, rows, log, start, stop, ty),
        Side::Goes => {
            log.cut(start);
            interpret(setting, rows, log, right, depth);
        }
        Side::Wrong => log.push_error(start, ty),
        Side::Unsure => second(setting, rows, log, start, node, stop, ty, right, depth),
    }
}

// The same where the left side is open: the `right` one is worked after it.
#[cycle(branch_first_group_interpret_operation_pair_second_split)]
fn second(
    setting: &Setting,
    rows: &mut [u32],
    log: &mut Log,
    start: usize,
    node: u32,
    stop: bool,
    ty: u32,
    right: u32,
    depth: u32,
)
    requires start_le_top { start ≤ log.old.top }
    requires clear { Clear rows.old setting.now.skip }
    ensures { Ends start log.old rows.new log.new (second_of stop start node ty log.old.top (interp_of partial setting.now.sheet.now setting.now.principal setting.now.resource depth rows.old (held log.old) right)) }
{
    let mid = log.top;
    interpret(setting, rows, log, right, depth);
    beside(setting.skip, rows, log, start, mid, node, stop, ty);
}

// An operation on two operands: the left one is worked, the block from `start` on.
#[cycle(branch_first_group_interpret_operation_pair_second_split)]
fn pair(
    setting: &Setting,
    rows: &mut [u32],
    log: &mut Log,
    start: usize,
    node: u32,
    tag: u32,
    depth: u32,
)
    requires start_le_top { start ≤ log.old.top }
    requires clear { Clear rows.old setting.now.skip }
    ensures { Ends start log.old rows.new log.new (pair_in partial setting.now.sheet.now tag (interp_of partial setting.now.sheet.now setting.now.principal setting.now.resource depth) start node (left rows.old (held log.old))) }
{
    let mid = log.top;
    let right = item(row(rows, NODE, node), 3);
    interpret(setting, rows, log, right, depth);
    two(setting.skip, rows, log, start, mid, node, tag);
}

// `if`, whose test is worked, the block from `start` on.
#[cycle(branch_first_group_interpret_operation_pair_second_split)]
fn branch(setting: &Setting, rows: &mut [u32], log: &mut Log, start: usize, node: u32, depth: u32)
    requires start_le_top { start ≤ log.old.top }
    requires clear { Clear rows.old setting.now.skip }
    ensures { Ends start log.old rows.new log.new (branch_in (interp_of partial setting.now.sheet.now setting.now.principal setting.now.resource depth) start node (left rows.old (held log.old))) }
{
    let line = row(rows, NODE, node);
    let ty = item(line, 1);
    let then = item(line, 3);
    let other = item(line, 4);
    match last_class(rows, log) {
        Class::True => {
            log.cut(start);
            interpret(setting, rows, log, then, depth);
        }
        Class::False => {
            log.cut(start);
            interpret(setting, rows, log, other, depth);
        }
        Class::Error => log.push_error(start, ty),
        Class::Open => split(setting, rows, log, start, node, ty, then, other, depth),
    }
}

// The same where the test is open: both branches, `then` and `other`, are worked after it.
#[cycle(branch_first_group_interpret_operation_pair_second_split)]
fn split(
    setting: &Setting,
    rows: &mut [u32],
    log: &mut Log,
    start: usize,
    node: u32,
    ty: u32,
    then: u32,
    other: u32,
    depth: u32,
)
    requires start_le_top { start ≤ log.old.top }
    requires clear { Clear rows.old setting.now.skip }
    ensures { Ends start log.old rows.new log.new (split_of (interp_of partial setting.now.sheet.now setting.now.principal setting.now.resource depth) start node ty other (interp_of partial setting.now.sheet.now setting.now.principal setting.now.resource depth rows.old (held log.old) then)) }
{
    interpret(setting, rows, log, then, depth);
    interpret(setting, rows, log, other, depth);
    log.push_left(start, node, 0, ty);
}

// A set or record: each child is the last of `step` words of its row.
#[cycle(branch_first_group_interpret_operation_pair_second_split)]
fn group(
    setting: &Setting,
    rows: &mut [u32],
    log: &mut Log,
    node: u32,
    tag: u32,
    step: usize,
    depth: u32,
)
    requires step_nonzero { 0 < step }
    requires clear { Clear rows.old setting.now.skip }
    ensures { Ends log.old.top log.old rows.new log.new (group_of partial setting.now.sheet.now tag step (interp_of partial setting.now.sheet.now setting.now.principal setting.now.resource depth) rows.old (held log.old) node) }
{
    let start = log.top;
    let most = row(rows, NODE, node).len().saturating_sub(2) / step;
    let mut joined = Joined::Values;
    for i in 0..most {
        let child = item(row(rows, NODE, node), (i + 1) * step + 1);
        interpret(setting, rows, log, child, depth);
        joined = join(log, joined);
    }
    many(rows, log, start, node, tag, joined);
}

// ---- the run

// The policies in order, each over what the ones before it left, on an empty log.
fn run_all(sheet: &[u8], rows: &mut [u32], log: &mut Log)
    requires long { 16384 ≤ length rows.old }
    requires empty { log.old.top ≡ 0 }
    ensures { Ends 0 log.old rows.new log.new (ended (run_of partial sheet.now rows.old [])) }
{
    let skip = clear_of(rows);
    for i in 0..count(rows, RUN) {
        let policy = row(rows, RUN, i);
        let root = item(policy, 3);
        let setting = Setting {
            sheet,
            principal: item(policy, 4),
            resource: item(policy, 5),
            skip,
        };
        interpret(&setting, rows, log, root, DEPTH);
    }
}

// The same in lent words; the end of the log.
pub fn run(sheet: &[u8], rows: &mut [u32], log: &mut [u32]) -> usize
    requires { (16384 ≤ length rows.old) × (16384 ≤ length log.old) }
    ensures { Leaves 0 rows.new log.new result (ended (run_of partial sheet.now rows.old [])) }
{
    let mut blocks = Log::new(log);
    run_all(sheet, rows, &mut blocks);
    blocks.top
}

// ---- the lines

// The number of the row that ends at `end`.
fn row_number(end: usize) -> u32
    requires { end ≤ 16384 }
    ensures { result ≡ end / ROW - 1 }
{
    (end / ROW).saturating_sub(1) as u32
}

// The classes and root numbers of the policies, whose blocks end at `top`.
#[tactic(auto, using(crate::proofs::Notes::lines_none, crate::proofs::Notes::lines_step, residual::proofs::Steps::start_low), unfolding(crate::specs::Lines::lines_of))]
pub fn lines(rows: &[u32], log: &mut [u32], top: usize)
    ensures { log.new ≡ lines_of rows.now log.old top }
{
    let most = count(rows, RUN) as usize;
    if most > 64 || top > ROOM {
        return;
    }
    let mut end = top;
    for k in (0..most).rev() {
        let start = start_at(log, end);
        put(log, CLASSES + k, class_at(rows, log, end).into());
        put(log, ROOTS + k, row_number(end));
        end = start;
    }
}
