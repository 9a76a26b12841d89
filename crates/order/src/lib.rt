// The order of keys: which line may come, and when there is one too many.
#![tactic(auto)]

ghost use Rattle.std.specs.Prelude.{◌≡◌, true, List, [], ℕ, ◌≤◌, leb, get_or};
ghost use Rattle.sheet.specs.Forms.{no_key, NODE};
ghost use Rattle.sheet.specs.State.{count};
ghost use Rattle.sheet.specs.Sheet.{greatest, enough, in_order, too_many};
ghost use Rattle.table.specs.Layout.{held};

use forms::{
    ACTION, CONTEXT, DAY, KIND, LINK, NO_KEY, NODE, POLICY, PRINCIPAL, RESOURCE, SHAPE, SHEET,
    TERM, key_row,
};
use table::count;

// No line is missing of the keys before `key`: one of the sheet, as many shapes as kinds, one of each part of the request and of the day.
pub fn enough_before(rows: &[u32], key: usize) -> bool
    requires { key ≤ no_key }
    ensures { result ≡ enough (held [] rows.now []) key }
{
    if key == SHEET {
        return true;
    }
    if count(rows, SHEET) == 0 {
        return false;
    }
    if key <= SHAPE {
        return true;
    }
    if count(rows, SHAPE) < count(rows, KIND) {
        return false;
    }
    if key <= PRINCIPAL {
        return true;
    }
    if count(rows, PRINCIPAL) == 0 {
        return false;
    }
    if key <= ACTION {
        return true;
    }
    if count(rows, ACTION) == 0 {
        return false;
    }
    if key <= RESOURCE {
        return true;
    }
    if count(rows, RESOURCE) == 0 {
        return false;
    }
    if key <= CONTEXT {
        return true;
    }
    if count(rows, CONTEXT) == 0 {
        return false;
    }
    if key <= DAY {
        return true;
    }
    count(rows, DAY) != 0
}

// No key after `key` has a line, and none is missing before it.
fn in_order(rows: &[u32], key: usize) -> bool
    requires { key ≤ no_key }
    ensures { result ≡ in_order (held [] rows.now []) key }
{
    if key == NODE {
        if count(rows, POLICY) != 0 {
            return false;
        }
        if count(rows, LINK) != 0 {
            return false;
        }
        if count(rows, TERM) != 0 {
            return false;
        }
        return enough_before(rows, NODE);
    }
    for i in key + 1..NO_KEY {
        let n = count(rows, i);
        if n != 0 {
            return false;
        }
    }
    enough_before(rows, key)
}

// Whether a line of this key may come, as is known of one of the key `last`.
pub fn in_turn(rows: &[u32], key: usize, last: usize) -> bool
    requires { (key ≤ no_key) × (in_order (held [] rows.now []) last ≡ true) }
    ensures { result ≡ in_order (held [] rows.now []) key }
{
    if key == last {
        return true;
    }
    in_order(rows, key)
}

// The greatest number of lines of a key; there are as many shapes as kinds.
fn most_of(rows: &[u32], key: usize) -> u32
    ensures { result ≡ get_or (greatest (held [] rows.now [])) key 0 }
{
    if key == SHAPE {
        return count(rows, KIND);
    }
    if key < NO_KEY {
        return key_row(key).most;
    }
    0
}

pub fn is_full(rows: &[u32], key: usize) -> bool
    ensures { result ≡ leb (get_or (greatest (held [] rows.now [])) key 0) (count (held [] rows.now []) key) }
{
    let m = most_of(rows, key);
    if m == 0 {
        return true;
    }
    let n = count(rows, key);
    m <= n
}

// Whether a node is one too many, whatever its row.
pub fn nodes_full(rows: &[u32]) -> bool
    ensures { (r : List ℕ) → result ≡ too_many (held [] rows.now []) NODE r }
{
    is_full(rows, NODE)
}
