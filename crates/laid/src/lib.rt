// The rows of a sheet in words of their own, on which a row of a whole firm is run: all rows, moved on, and before them those of principal and
// resource with the row's own texts.
#![tactic(auto)]

ghost use Rattle.std.specs.Prelude.{◌≡◌, suc, ◌+◌, ◌≤◌, ◌<◌, length};
ghost use Rattle.table.specs.Layout.{heap, base};
ghost use Rattle.laid.specs.Laid.{moved, line_with, Ends, MovesRows, Moves, Shifted, Lays, Laid, Roomy};

use forms::{PRINCIPAL, RESOURCE};
use table::{HEAP, TOP, base_of, count, item, row};
use words::{ROOM, cut, put, read, store};

// The words of the rows of principal and resource, tag, kind and text: of one, and of both. In a row's own words they stand before the others.
const LINE: u32 = 3;

const AHEAD: usize = 6;

// Where what stood at a place stands in those words.
fn moved(place: u32) -> u32
    ensures { result ≡ moved place }
{
    if place > ROOM as u32 {
        return place;
    }
    place + AHEAD as u32
}

// Where the words end that say where a key's rows begin, with the one for the end of the last.
fn places_end(rows: &[u32], key: usize) -> usize
    ensures { Ends rows.now key result }
{
    let end = base_of(key) + count(rows, key) as usize + 1;
    if end > HEAP {
        return HEAP;
    }
    end
}

// The places of a key's rows, moved.
fn move_rows(rows: &[u32], own: &mut [u32], key: usize)
    requires { (heap ≤ length rows.now) × (heap ≤ length own.old) }
    ensures { MovesRows key rows.now own.old own.new }
{
    for i in base_of(key)..places_end(rows, key) {
        own[i] = moved(rows[i]);
    }
}

// The places of all rows and of the heap's end, moved; those that no row uses stay.
fn move_places(rows: &[u32], own: &mut [u32])
    requires { (heap ≤ length rows.now) × (heap ≤ length own.old) }
    ensures { Moves rows.now own.old own.new }
{
    for key in 0..TOP {
        move_rows(rows, own, key);
    }
    own[TOP] = moved(rows[TOP]);
}

// A row of principal or resource from `start` on, with this text.
fn lay_line(own: &mut [u32], key: usize, start: u32, line: &[u32], text: u32)
    requires { (heap ≤ start) × (start + 3 ≤ 16384) × (16384 ≤ length own.old) × (suc (base key) < heap) }
    ensures { Lays key start (line_with line.now text) own.old own.new }
{
    let words = [item(line, 0), item(line, 1), text];
    store(own, start as usize, &words);
    let place = base_of(key);
    put(own, place, start);
    put(own, place + 1, start + LINE);
}

// All rows of a sheet in words of their own, AHEAD words further on.
fn shift(rows: &[u32], own: &mut [u32])
    requires { (16384 ≤ length rows.now) × (length own.old ≡ 16384) }
    ensures { Roomy rows.now → Shifted rows.now own.new }
{
    store(own, 0, cut(rows, 0, TOP));
    move_places(rows, own);
    store(own, HEAP + AHEAD, cut(rows, HEAP, read(rows, TOP) as usize));
}

// The rows of a sheet in words of their own, with these texts of principal and resource.
pub fn lay(rows: &[u32], own: &mut [u32], principal: u32, resource: u32)
    requires { (16384 ≤ length rows.now) × (length own.old ≡ 16384) }
    ensures { Roomy rows.now → Laid rows.now principal resource own.new }
{
    shift(rows, own);
    let start = HEAP as u32;
    lay_line(own, PRINCIPAL, start, row(rows, PRINCIPAL, 0), principal);
    lay_line(
        own,
        RESOURCE,
        start + LINE,
        row(rows, RESOURCE, 0),
        resource,
    );
}
