// A text against a pattern of texts and `*`, which stands for any run. The items up to the next `*` are joined to one text, which is looked for;
// where it stands first, no later place is tried for it.
#![tactic(auto)]

ghost use Rattle.std.specs.Prelude.{◌≡◌, cond, ◌+◌, ◌≤◌, eqb, length, drop};
ghost use Rattle.cedar.specs.Evaluate.{matches};
ghost use Rattle.sheet.specs.Forms.{mark};
ghost use Rattle.sheet.specs.Content.{pattern_of};
ghost use Rattle.table.specs.Layout.{text_at};
ghost use Rattle.like.specs.Globs.{block_in, step_in, begins, block_of, until_piece, later_of, step_of, after, Joins, first_of, last_of, Steps};

use forms::MARK;
use table::text;
use words::store;

// The items up to the next `*` at a place of the text: they do not stand there; they do, and are the last ones, up to this place;
// they do, and the item after the `*` and the place reached are these.
#[derive(Clone, Copy)]
pub enum Block {
    Misses,
    Ends(usize),
    Star(usize, usize),
}

// Whether the text has the piece at a place: the first and the last byte are compared first.
fn begins(bytes: &[u8], at: usize, piece: &[u8]) -> bool
    ensures { result ≡ begins piece.now (drop at bytes.now) }
{
    let n = piece.len();
    if at > bytes.len() {
        return n == 0;
    }
    if n > bytes.len() - at {
        return false;
    }
    if n == 0 {
        return true;
    }
    if piece[0] != bytes[at] {
        return false;
    }
    let e = at + n;
    if piece[n - 1] != bytes[e - 1] {
        return false;
    }
    piece == &bytes[at..e]
}

// Whether the pattern holds of the text, or the item and the place to go on from.
#[derive(Clone, Copy)]
enum Step {
    Holds,
    Fails,
    On(usize, usize),
}

// A pattern over the texts of a sheet, and the text that it is asked of.
#[derive(Clone, Copy)]
struct Glob<'a> {
    sheet: &'a [u8],
    rows: &'a [u32],
    pattern: &'a [u32],
    bytes: &'a [u8],
}

// The items of the pattern from `from` on, at place `at` of the text.
#[derive(Clone, Copy)]
struct Search<'a> {
    glob: Glob<'a>,
    from: usize,
    at: usize,
    ghost item: { from ≤ length glob.pattern.now },
    ghost place: { at ≤ length glob.bytes.now },
}

impl<'a> Search<'a> {
    // The items at the place.
    fn block(&self) -> Block
        ensures { block_in result ≡ block_of (text_at self.now.glob.sheet.now self.now.glob.rows.now) self.now.from self.now.at (drop self.now.from self.now.glob.pattern.now) (drop self.now.at self.now.glob.bytes.now) }
    {
        let pattern = self.glob.pattern;
        let mut e = self.at;
        for p in self.from..pattern.len() {
            let x = pattern[p];
            if x == MARK {
                return Block::Star(p + 1, e);
            }
            let piece = text(self.glob.sheet, self.glob.rows, x);
            if !begins(self.glob.bytes, e, piece) {
                return Block::Misses;
            }
            e += piece.len();
        }
        Block::Ends(e)
    }

    // The items after a `*`, at the place or one place further on.
    fn step(&self) -> Step
        ensures { step_in result ≡ step_of (length self.now.glob.bytes.now) self.now.from self.now.at (block_of (text_at self.now.glob.sheet.now self.now.glob.rows.now) self.now.from self.now.at (drop self.now.from self.now.glob.pattern.now) (drop self.now.at self.now.glob.bytes.now)) }
    {
        match self.block() {
            Block::Star(p, e) => Step::On(p, e),
            Block::Misses => later(self.glob.bytes, self.from, self.at),
            Block::Ends(e) => {
                if e >= self.glob.bytes.len() {
                    return Step::Holds;
                }
                later(self.glob.bytes, self.from, self.at)
            }
        }
    }

    // The block after a `*`, joined. No sheet has two empty texts; the one that it has is looked up once.
    fn join(&self, block: &mut [u8]) -> Joined
        ensures { Joins (text_at self.now.glob.sheet.now self.now.glob.rows.now) self.now.glob.pattern.now self.now.from block.new result }
    {
        let pattern = self.glob.pattern;
        let mut n = 0;
        let mut empty = MARK;
        for p in self.from..pattern.len() {
            let x = pattern[p];
            if idle(x, empty, n) {
                continue;
            }
            if x == MARK {
                return Joined::Inner(p + 1, n);
            }
            let piece = text(self.glob.sheet, self.glob.rows, x);
            if piece.len() > block.len() - n {
                return Joined::Long;
            }
            store(block, n, piece);
            n += piece.len();
            empty = emptied(piece, x, empty);
        }
        Joined::Last(n)
    }

    // The block after a `*`, at the place or a later one. One that is too long to be joined is tried at one place after the other.
    fn advance(&self) -> Step
        ensures { Steps (text_at self.now.glob.sheet.now self.now.glob.rows.now) self.now.glob.pattern.now self.now.glob.bytes.now self.now.from self.now.at (step_in result) }
    {
        let mut block: [u8; BLOCK] = [0; BLOCK];
        let joined = self.join(&mut block[..]);
        match joined {
            Joined::Inner(p, n) => first(self.glob.bytes, &block[..n], self.at, p),
            Joined::Last(n) => last(self.glob.bytes, &block[..n], self.at),
            Joined::Long => {
                if self.glob.bytes.len() - self.at <= BLOCK {
                    return Step::Fails;
                }
                self.step()
            }
        }
    }

    // Whether the items after a `*` match at the place or a later one.
    fn go_on(&self) -> bool
        ensures { result ≡ after (text_at self.now.glob.sheet.now self.now.glob.rows.now) self.now.glob.pattern.now self.now.glob.bytes.now self.now.from self.now.at }
    {
        let glob = self.glob;
        let mut from = self.from;
        let mut at = self.at;
        loop {
            let here = Search { glob, from, at };
            match here.advance() {
                Step::Holds => return true,
                Step::Fails => return false,
                Step::On(p, e) => {
                    from = p;
                    at = e;
                }
            }
        }
    }
}

// The same items one place further on.
fn later(bytes: &[u8], from: usize, at: usize) -> Step
    ensures { step_in result ≡ later_of (length bytes.now) from at }
{
    if at < bytes.len() {
        return Step::On(from, at + 1);
    }
    Step::Fails
}

// The first place from `from` on where the text has the piece, or the text's end.
fn seek(bytes: &[u8], piece: &[u8], from: usize) -> usize
    requires { from ≤ length bytes.now }
    ensures { result ≡ from + until_piece piece.now (drop from bytes.now) }
{
    for u in from..bytes.len() {
        if bytes.len() - u < piece.len() {
            break;
        }
        if begins(bytes, u, piece) {
            return u;
        }
    }
    bytes.len()
}

// The items up to the next `*`, joined to one text: it is longer than there is room for; it has so many bytes and is the last block; item `.0` comes
// after the `*`, and it has so many bytes.
#[derive(Clone, Copy)]
enum Joined {
    Long,
    Last(usize),
    Inner(usize, usize),
}

// The most bytes of a block that is joined.
const BLOCK: usize = 128;

// Whether an item adds nothing to the `n` bytes that are joined: a `*` after a `*`, or the text that is known to be empty.
fn idle(item: u32, empty: u32, n: usize) -> bool
    ensures { result ≡ cond (eqb item mark) (eqb n 0) (eqb item empty) }
{
    if item == MARK {
        return n == 0;
    }
    item == empty
}

// The text that is known to be empty, after `item` was looked at.
fn emptied(piece: &[u8], item: u32, empty: u32) -> u32
    ensures { result ≡ cond (eqb (length piece.now) 0) item empty }
{
    if piece.len() == 0 {
        return item;
    }
    empty
}

// A block before item `next`, at its first place from `at` on.
fn first(bytes: &[u8], piece: &[u8], at: usize, next: usize) -> Step
    requires { at ≤ length bytes.now }
    ensures { step_in result ≡ first_of piece.now (drop at bytes.now) at next }
{
    let u = seek(bytes, piece, at);
    if !begins(bytes, u, piece) {
        return Step::Fails;
    }
    Step::On(next, u + piece.len())
}

// The last block, from `at` on: it ends with the text.
fn last(bytes: &[u8], piece: &[u8], at: usize) -> Step
    requires { at ≤ length bytes.now }
    ensures { step_in result ≡ last_of piece.now bytes.now at }
{
    if piece.len() > bytes.len() - at {
        return Step::Fails;
    }
    if begins(bytes, bytes.len() - piece.len(), piece) {
        return Step::Holds;
    }
    Step::Fails
}

// Whether the text matches the pattern.
pub fn like(sheet: &[u8], rows: &[u32], pattern: &[u32], bytes: &[u8]) -> bool
    ensures { result ≡ matches (text_at sheet.now rows.now) (pattern_of pattern.now) bytes.now }
{
    let glob = Glob {
        sheet,
        rows,
        pattern,
        bytes,
    };
    let start = Search {
        glob,
        from: 0,
        at: 0,
    };
    match start.block() {
        Block::Misses => false,
        Block::Ends(e) => e >= bytes.len(),
        Block::Star(from, at) => Search { glob, from, at }.go_on(),
    }
}
