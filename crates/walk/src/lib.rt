// The walk of a path of texts: of a long one by the attributes that stand in cells, as far as they lead, and past that by chains of entity
// lines and notes.
#![tactic(auto)]

ghost use Rattle.std.specs.Prelude.{◌≡◌, ◌+◌, ◌≤◌, ◌<◌, length, drop};
ghost use Rattle.walk.specs.Walks.{walk_from, Found};
ghost use Rattle.firsts.specs.Firsts.{Firsts};
ghost use Rattle.notes.specs.Noted.{Noted};

use firsts::{BLANK, CELLS, Cell, firsts, keep, next};
use forms::ENTITY;
use lookup::{Look, TEXTS};
use notes::chains::{Chains, index};
use notes::{NOWHERE, Span, look_noted};
use reach::{LINES, VALUES};
use table::count;

// A path of so many steps is a long one.
const LONG: usize = 4;

// Where a path leads: it holds or not, it fails, or it is left at a value, an entity of this kind, after so many steps.
#[derive(Clone, Copy)]
pub enum Walked {
    Holds(bool),
    Fails,
    Left(u32, u32, usize),
}

// `text` among the attributes of a record or an entity, by its cell; what the cell does not have is looked up, and put there where it is found.
fn look_kept(
    chains: &Chains,
    complete: bool,
    value: u32,
    text: u32,
    spans: &mut [Span],
    cells: &mut [Cell],
) -> Look
    requires noted { Noted complete chains.now.rows.now spans.old }
    requires firsts { Firsts chains.now.rows.now cells.old }
    ensures { Found complete chains.now.rows.now value text spans.new cells.new result }
{
    if let Some(x) = next(cells, value, text) {
        return Look::At(x);
    }
    let l = look_noted(chains, complete, value, text, spans);
    let Look::At(x) = l else {
        return l;
    };
    keep(cells, value, text, x);
    l
}

// A path of texts from step `first` on, at value `value`, by cells, and with a table by value for what is noted.
fn walk_noted(
    chains: &Chains,
    complete: bool,
    value: u32,
    first: usize,
    path: &[u32],
    spans: &mut [Span],
    cells: &mut [Cell],
) -> Walked
    requires first_in_bounds { first ≤ length path.now }
    requires noted { Noted complete chains.now.rows.now spans.old }
    requires firsts { Firsts chains.now.rows.now cells.old }
    ensures { result ≡ walk_from complete chains.now.rows.now value first (drop first path.now) }
{
    let mut n = value;
    for i in first..path.len() {
        match look_kept(chains, complete, n, path[i], spans, cells) {
            Look::Bad => return Walked::Fails,
            Look::Missing => return Walked::Holds(false),
            Look::Unknown(k) => return Walked::Left(n, k, i),
            Look::At(x) => {
                if i + 1 >= path.len() {
                    return Walked::Holds(true);
                }
                n = x;
            }
        }
    }
    Walked::Fails
}

// A long path of texts from step `first` on, at value `value`, by chains and notes.
fn walk_chained(
    rows: &[u32],
    complete: bool,
    value: u32,
    first: usize,
    path: &[u32],
    cells: &mut [Cell],
) -> Walked
    requires first_in_bounds { first ≤ length path.now }
    requires firsts { Firsts rows.now cells.old }
    ensures { result ≡ walk_from complete rows.now value first (drop first path.now) }
{
    let mut heads: [u32; TEXTS] = [0; TEXTS];
    let mut links: [u32; LINES] = [0; LINES];
    index(rows, &mut heads[..], &mut links[..]);
    let chains = Chains {
        rows,
        heads: &heads[..],
        links: &links[..],
    };
    let mut spans = [NOWHERE; VALUES];
    walk_noted(&chains, complete, value, first, path, &mut spans[..], cells)
}

// A path of texts from step `first` on, at value `value`. Where few steps are left, little is noted, and no chains are made.
fn walk_on(
    rows: &[u32],
    complete: bool,
    value: u32,
    first: usize,
    path: &[u32],
    cells: &mut [Cell],
) -> Walked
    requires first_in_bounds { first ≤ length path.now }
    requires firsts { Firsts rows.now cells.old }
    ensures { result ≡ walk_from complete rows.now value first (drop first path.now) }
{
    if path.len() - first >= LONG {
        return walk_chained(rows, complete, value, first, path, cells);
    }
    let chains = Chains {
        rows,
        heads: &rows[0..0],
        links: &rows[0..0],
    };
    let mut spans = [NOWHERE; 1];
    walk_noted(&chains, complete, value, first, path, &mut spans[..], cells)
}

// A path of texts from value `value` on, by the attributes noted as far as they lead.
fn walk_firsts(rows: &[u32], complete: bool, value: u32, path: &[u32], cells: &mut [Cell]) -> Walked
    requires { Firsts rows.now cells.old }
    ensures { result ≡ walk_from complete rows.now value 0 path.now }
{
    let mut n = value;
    for (i, &text) in path.iter().enumerate() {
        let Some(x) = next(cells, n, text) else {
            return walk_on(rows, complete, n, i, path, cells);
        };
        if i + 1 >= path.len() {
            return Walked::Holds(true);
        }
        n = x;
    }
    Walked::Fails
}

// A long path of texts from value `value` on: the attributes of entities are noted.
fn walk_long(rows: &[u32], complete: bool, value: u32, path: &[u32]) -> Walked
    ensures { result ≡ walk_from complete rows.now value 0 path.now }
{
    let mut cells = [BLANK; CELLS];
    firsts(rows, &mut cells[..]);
    walk_firsts(rows, complete, value, path, &mut cells[..])
}

// A path of texts from value `value` on, with no cells.
fn walk_short(rows: &[u32], complete: bool, value: u32, path: &[u32]) -> Walked
    ensures { result ≡ walk_from complete rows.now value 0 path.now }
{
    let mut cells = [BLANK; 1];
    walk_on(rows, complete, value, 0, path, &mut cells[..])
}

// A path of texts from value `value` on. For a short one, one of few steps for the entities there are, and where there are none, no attributes are noted.
pub fn walk(rows: &[u32], complete: bool, value: u32, path: &[u32]) -> Walked
    ensures { result ≡ walk_from complete rows.now value 0 path.now }
{
    if path.len() < LONG {
        return walk_short(rows, complete, value, path);
    }
    let n = count(rows, ENTITY);
    if n == 0 {
        return walk_short(rows, complete, value, path);
    }
    if path.len() < n as usize / 2 {
        return walk_short(rows, complete, value, path);
    }
    walk_long(rows, complete, value, path)
}
