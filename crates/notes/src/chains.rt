// The lines of entities in chains, one for each text, for the many look-ups of a long path. A line is named by how many are left from it on.
ghost use Rattle.std.specs.Prelude.{◌≡◌, ℕ, suc, ◌<◌, get_or, length, [], drop};
ghost use Rattle.sheet.specs.Forms.{ENTITY, at};
ghost use Rattle.table.specs.Layout.{rows_of};
ghost use Rattle.lookup.specs.Lookups.{line_at, line_in};
ghost use Rattle.notes.specs.Chains.{text_of, left_of, Clear, Chained};

use forms::{ENTITY, VALUE};
use lookup::{find_entity, first_of, is_entity};
use table::{base_of, count, item, row};
use words::{put, read};

// Chains of the lines that the rows hold: where the chain of a text begins, and where it goes on after a line.
#[derive(Clone, Copy)]
pub struct Chains<'a> {
    pub rows: &'a [u32],
    pub heads: &'a [u32],
    pub links: &'a [u32],
    ghost first: { (t : ℕ) → t < length heads.now → get_or heads.now t 0 ≡ left_of rows.now t (rows_of rows.now ENTITY) },
    ghost next: { (j : ℕ) → j < length (rows_of rows.now ENTITY) → j < length links.now → text_of rows.now (at (get_or (rows_of rows.now ENTITY) j []) 0) < length heads.now → get_or links.now j 0 ≡ left_of rows.now (text_of rows.now (at (get_or (rows_of rows.now ENTITY) j []) 0)) (drop (suc j) (rows_of rows.now ENTITY)) },
}

// The text of entity `value` of the sheet; 0 where it has none.
fn text_of(rows: &[u32], value: u32) -> u32
    ensures { result ≡ text_of rows.now value }
{
    if value >= count(rows, VALUE) {
        return 0;
    }
    let b = base_of(VALUE) + value as usize;
    let start = read(rows, b) as usize;
    let end = read(rows, b + 1) as usize;
    if start + 2 >= end {
        return 0;
    }
    read(rows, start + 2)
}

// From the last line to the first, each begins the chain of its text and goes on with what began it before.
pub fn index(rows: &[u32], heads: &mut [u32], links: &mut [u32])
    requires { Clear heads.old }
    ensures { Chained rows.now (rows_of rows.now ENTITY) 0 heads.new links.new }
{
    let n = count(rows, ENTITY);
    let b = base_of(ENTITY);
    let mut end = read(rows, b + n as usize) as usize;
    for i in (0..n).rev() {
        let start = read(rows, b + i as usize) as usize;
        let text = text_of(rows, first_of(rows, start, end)) as usize;
        put(links, i as usize, read(heads, text));
        put(heads, text, n - i);
        end = start;
    }
}

impl<'a> Chains<'a> {
    // The line of an entity by the chain of its text; what the tables do not have is looked for.
    pub fn find(&self, kind: u32, text: u32) -> Option<u32>
        ensures { line_at (rows_of self.now.rows.now ENTITY) result ≡ line_in self.now.rows.now kind text }
    {
        let rows = self.rows;
        let t = text as usize;
        if t >= self.heads.len() {
            return find_entity(rows, kind, text);
        }
        let n = count(rows, ENTITY);
        if n as usize > self.links.len() {
            return find_entity(rows, kind, text);
        }
        let mut left = self.heads[t];
        while left > 0 {
            let i = n - left;
            if is_entity(rows, item(row(rows, ENTITY, i), 1), kind, text) {
                return Some(i);
            }
            left = self.links[i as usize];
        }
        None
    }
}
