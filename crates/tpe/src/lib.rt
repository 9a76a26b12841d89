// The interpreter of policies. Its definition over words is in specs/, what it means in proofs/. What a node does with its worked
// operands stands in `steps`. The first `skip` values are no bools: a search for a bool begins after them.
#![tactic(auto)]

pub mod steps;

ghost use Rattle.std.specs.Prelude.{◌≡◌, ◌≤◌, take};
ghost use Rattle.value.specs.Made.{bool_row};
ghost use Rattle.value.specs.Clear.{Clear};
ghost use Rattle.sheet.specs.Forms.{NODE};
ghost use Rattle.table.specs.Layout.{rows_of};
ghost use Rattle.residual.specs.Rows.{stage_at};
ghost use Rattle.residual.specs.Errs.{errs};
ghost use Rattle.residual.specs.Classes.{class_number};
ghost use Rattle.tpe.specs.Run.{class_by, made_of, decided_by};
ghost use Rattle.residual.specs.Logs.{held};
ghost use Rattle.tpe.specs.Leaves.{Ends};
ghost use Rattle.tpe.specs.Classes.{class_in};

use residual::{
    CLASS_ERROR, CLASS_FALSE, CLASS_OPEN, CLASS_TRUE, Log, Stage, can_error_assuming_well_formed,
    stage_at,
};
use value::making::make_bool_after;
use value::{Shape, row_of, shape_of};

// What trees are worked under: the sheet's bytes, the values of a policy's link, and how many of the sheet's first values are no bools.
#[derive(Clone, Copy)]
pub struct Setting<'a> {
    pub sheet: &'a [u8],
    pub principal: u32,
    pub resource: u32,
    pub skip: usize,
}

// What a bool operand or policy is called.
#[derive(Clone, Copy, PartialEq, Eq)]
pub enum Class {
    True,
    False,
    Error,
    Open,
}

// The number of a class in its word.
impl From<Class> for u32 {
    ghost from_gives = { λ class number. number ≡ class_number (class_in class) };

    fn from(class: Class) -> u32 {
        match class {
            Class::True => CLASS_TRUE,
            Class::False => CLASS_FALSE,
            Class::Error => CLASS_ERROR,
            Class::Open => CLASS_OPEN,
        }
    }
}

// The class of a value: one that is not a bool is called open.
#[tactic(auto, using(crate::proofs::Ways::by_shape))]
pub fn class_of(rows: &[u32], value: u32) -> Class
    ensures { class_in result ≡ class_by rows.now (Stage.Value value) }
{
    match shape_of(row_of(rows, value as usize)) {
        Shape::Bool(true) => Class::True,
        Shape::Bool(false) => Class::False,
        _ => Class::Open,
    }
}

// The class of the block that ends at `end`.
pub fn class_at(rows: &[u32], log: &[u32], end: usize) -> Class
    ensures { class_in result ≡ class_by rows.now (stage_at log.now end) }
{
    match stage_at(log, end) {
        Stage::Value(v) => class_of(rows, v),
        Stage::Error => Class::Error,
        Stage::Open => Class::Open,
    }
}

// A bool found or made, as a value of type `ty` in the place of the blocks from `start` on.
pub fn give_bool(skip: usize, rows: &mut [u32], log: &mut Log, start: usize, truth: bool, ty: u32)
    requires start_le_top { start ≤ log.old.top }
    requires clear { Clear rows.old skip }
    ensures { Ends start log.old rows.new log.new (made_of rows.old (take start log.old.words.now) ty (bool_row truth)) }
{
    let v = make_bool_after(rows, skip, truth);
    log.push_value(start, v, ty);
}

// Beside an open left side, which ends at `mid`, the right one is the bool that decides: where the left side can err, the node stays.
pub fn decided(
    skip: usize,
    rows: &mut [u32],
    log: &mut Log,
    start: usize,
    mid: usize,
    node: u32,
    truth: bool,
    ty: u32,
)
    requires start_le_mid { (start ≤ mid) × (mid ≤ log.old.top) }
    requires clear { Clear rows.old skip }
    ensures { Ends start log.old rows.new log.new (decided_by truth start node ty mid rows.old (held log.old) (errs (rows_of rows.old NODE) (held log.old) mid)) }
{
    if log.can_error(rows, mid) {
        give_bool(skip, rows, log, mid, truth, ty);
        log.push_left(start, node, 0, ty);
        return;
    }
    give_bool(skip, rows, log, start, truth, ty);
}
