// The refusal of a row, 3 to 8 in number order, against the rows that the words hold.
#![tactic(auto)]

ghost use Rattle.std.specs.Prelude.{◌≡◌, true, [], ◌≤◌, ◌<◌, length};
ghost use Rattle.words.specs.Log.{part, room};
ghost use Rattle.sheet.specs.Forms.{key_of, no_key, NODE};
ghost use Rattle.sheet.specs.State.{lines_of};
ghost use Rattle.sheet.specs.Sheet.{in_order};
ghost use Rattle.table.specs.Layout.{row_in, held};
ghost use Rattle.seen.specs.Seen.{Seen, Unlike};
ghost use Rattle.uses.specs.Under.{Noted};
ghost use Rattle.fits.specs.Fit.{Known};
ghost use Rattle.faults.specs.Numbers.{fault_number};
ghost use Rattle.judge.specs.Verdicts.{NewDepth, TypedLine, Judged, key_in, depth_in, seen_at};

use checks::{new_depth, node_depth, too_many};
use depths::is_too_deep;
use faults::Fault;
use forms::{ENTITY, NODE, TEXT};
use order::{in_turn, nodes_full};
use repeats::is_text;
use seen::see_line;
use table::{bytes, item, key_of, tag};
use typing::lines::typed;
use typing::nodes::node_typed;
use uses::{use_nodes, use_root};
use words::{ROOM, cut};

// The key and the depth of a row that is not refused.
#[derive(Clone, Copy)]
pub struct Verdict {
    pub key: usize,
    pub depth: u32,
}

// kept: rows and work are lent shared in checks, work mutable here and both in take, so what is known of both would need three structs, which is no plainer.

// Whether a row of this key is typed. No line before the entities asks whether a value fits, so nothing is remembered of it.
fn typed_line(rows: &[u32], work: &mut [u32], line: &[u32], key: usize) -> bool
    requires { Known rows.now work.old }
    ensures { TypedLine rows.now work.old work.new line.now key result }
{
    if key < ENTITY {
        return typed(rows, &mut work[0..0], line, key);
    }
    typed(rows, work, line, key)
}

// The depth of a row of this key, if the lines that it refers to are there and the row is new, as it is known to be where `new` says so.
fn depth_of(
    sheet: &[u8],
    rows: &[u32],
    work: &[u32],
    key: usize,
    line: &[u32],
    new: bool,
) -> Option<usize>
    requires key_value { (key ≡ key_of line.now) × (key < no_key) }
    requires noted { Noted rows.now work.now × Unlike (row_in sheet.now (key_of line.now) line.now) (lines_of (held sheet.now rows.now work.now) (key_of line.now)) new }
    ensures { NewDepth sheet.now rows.now work.now line.now key result }
{
    if key == TEXT {
        if new {
            return Some(1);
        }
        let s = item(line, 1) as usize;
        let n = item(line, 2) as usize;
        if is_text(sheet, rows, bytes(sheet, s, s + n)) {
            return None;
        }
        return Some(1);
    }
    new_depth(rows, work, key, line, new)
}

// The refusal of a node's row, and where there is none its key and depth; the nodes that it uses are then marked. A line of the key `last`, that of
// the line before, may come.
fn judge_node(
    sheet: &[u8],
    rows: &[u32],
    work: &mut [u32],
    line: &[u32],
    last: usize,
) -> Result<Verdict, Fault>
    requires line_value { (key_of line.now ≡ NODE) × (length rows.now ≡ room) × (length work.old ≡ room) × (in_order (held sheet.now rows.now work.old) last ≡ true) }
    requires known { Known rows.now work.old × Noted rows.now work.old }
    ensures { Judged sheet.now rows.now work.old line.now work.new (fault_number result) (key_in result) (depth_in result) }
{
    let rows = &rows[..ROOM];
    let work = &mut work[..ROOM];
    if !in_turn(rows, NODE, last) {
        return Err(Fault::Form);
    }
    if nodes_full(rows) {
        return Err(Fault::TooMany);
    }
    let Some(depth) = node_depth(rows, work, line) else {
        return Err(Fault::Reference);
    };
    if is_too_deep(depth) {
        return Err(Fault::Depth);
    }
    if !node_typed(rows, work, line) {
        return Err(Fault::Typing);
    }
    if use_nodes(rows, work, line) {
        return Err(Fault::Uses);
    }
    Ok(Verdict {
        key: NODE,
        depth: depth as u32,
    })
}

// The same of a row of another key. A row that is `new` repeats no other.
fn judge(
    sheet: &[u8],
    rows: &[u32],
    work: &mut [u32],
    key: usize,
    line: &[u32],
    new: bool,
    last: usize,
) -> Result<Verdict, Fault>
    requires key_value { (key ≡ key_of line.now) × (key ≡ NODE → ⊥) × (length rows.now ≡ room) × (length work.old ≡ room) × (in_order (held sheet.now rows.now work.old) last ≡ true) }
    requires known { Known rows.now work.old × Noted rows.now work.old × Unlike (row_in sheet.now (key_of line.now) line.now) (lines_of (held sheet.now rows.now work.old) (key_of line.now)) new }
    ensures { Judged sheet.now rows.now work.old line.now work.new (fault_number result) (key_in result) (depth_in result) }
{
    let rows = &rows[..ROOM];
    let work = &mut work[..ROOM];
    if !in_turn(rows, key, last) {
        return Err(Fault::Form);
    }
    if too_many(rows, work, key, line) {
        return Err(Fault::TooMany);
    }
    let Some(depth) = depth_of(sheet, rows, work, key, line, new) else {
        return Err(Fault::Reference);
    };
    if is_too_deep(depth) {
        return Err(Fault::Depth);
    }
    if !typed_line(rows, work, line, key) {
        return Err(Fault::Typing);
    }
    if use_root(rows, work, key, line) {
        return Err(Fault::Uses);
    }
    Ok(Verdict {
        key,
        depth: depth as u32,
    })
}

// The same of the row that lies from word `top` to word `end`, which joins the rows seen.
pub fn judge_at(
    sheet: &[u8],
    rows: &[u32],
    work: &mut [u32],
    top: usize,
    end: usize,
    seen: &mut [u32],
    last: usize,
) -> Result<Verdict, Fault>
    requires rows_len { (length rows.now ≡ room) × (length work.old ≡ room) × (in_order (held sheet.now rows.now work.old) last ≡ true) }
    requires known { Known rows.now work.old × Noted rows.now work.old × Seen (held sheet.now rows.now work.old) seen.old }
    ensures verdict { Judged sheet.now rows.now work.old (part rows.now top end) work.new (fault_number result) (key_in result) (depth_in result) }
    ensures seen { seen.new ≡ seen_at sheet.now seen.old (part rows.now top end) }
{
    let line = cut(rows, top, end);
    let key = key_of(tag(line));
    if key == NODE {
        return judge_node(sheet, rows, work, line, last);
    }
    let new = see_line(sheet, key, line, seen);
    judge(sheet, rows, work, key, line, new, last)
}
