// The call `load`: the sheet that a seed and a number of policies name, a test load that all can repeat. It is printed draw by draw into a
// buffer that the caller lends. No work slices are lent, and nothing is asked of what is given.
#![tactic(auto)]

ghost use Rattle.std.specs.Prelude.{◌≡◌, ◌≤◌, [], ◌∷◌, ◌++◌};
ghost use Rattle.print.specs.Written.{Written};
ghost use Rattle.print.specs.Out.{Prints};
ghost use Rattle.sheet.specs.Bytes.{digits};
ghost use Rattle.sheet.specs.Answer.{concat, printed};
ghost use Rattle.drawn.specs.TestLoad.{next, drawn, id_lines, tree_lines, nodes_in, nodes_from, effect_as, policies_from, load};
ghost use Rattle.testload.specs.Loaded.{Loaded, Draws};

use faults::Fault;
use print::{Out, Returned};

// What is added to the state for each draw.
const STEP: u64 = 11400714819323198485;

// A draw is the state divided by this, then its rest by the number of choices.
const LOWER: u64 = 4294967296;

// The choices of an effect, the first of which is permit, and those of a tree: literal true, literal false, `like`.
const EFFECTS: u64 = 2;

const PERMIT: u64 = 0;

const TREES: u64 = 3;

const LITERAL_TRUE: u64 = 0;

const LITERAL_FALSE: u64 = 1;

// The text numbers of the ids: five texts of the head come before them.
const FIRST_ID: u64 = 5;

// The most policies of a load.
const MOST: u32 = 64;

// What a policy draws, and the state after it.
#[derive(Clone, Copy)]
struct Policy {
    effect: u64,
    tree: u64,
    state: u64,
}

// The state of the next draw: the sum wraps.
fn next(state: u64) -> u64
    ensures { result ≡ next state }
{
    std::num::wrapping_add_u64(state, STEP)
}

// The draws of one policy: effect, then tree.
fn drawn(state: u64) -> Policy
    ensures { Draws state result.effect result.tree result.state }
{
    let first = next(state);
    let second = next(first);
    Policy {
        effect: first / LOWER % EFFECTS,
        tree: second / LOWER % TREES,
        state: second,
    }
}

// How many nodes a tree has.
fn nodes_in(tree: u64) -> u64
    ensures { result ≡ nodes_in tree }
{
    match tree {
        LITERAL_TRUE => 1,
        LITERAL_FALSE => 1,
        _ => 3,
    }
}

// ---- lines

// The text of the id of policy `i`.
fn id_line(out: &mut Out, i: u64)
    ensures { Prints out.old (printed "text" ((112 ∷ digits i) ∷ [])) out.new }
{
    out.bytes(b"text=p");
    out.number(i);
    out.byte(b'\n');
}

// The texts of all ids.
fn ids(out: &mut Out, count: u64)
    ensures { Prints out.old (concat (id_lines 0 count)) out.new }
{
    for i in 0..count {
        id_line(out, i);
    }
}

// A `like` on the attribute of the context, its nodes numbered from `node`.
fn like_lines(out: &mut Out, node: u64)
    requires { node ≤ 192 }
    ensures { Prints out.old (concat (tree_lines node 2)) out.new }
{
    out.bytes(b"node=3,var,c\nnode=1,get,");
    out.number(node);
    out.bytes(b",4\nnode=0,like,");
    out.number(node + 1);
    out.bytes(b",*\n");
}

// The nodes of one tree, numbered from `node`.
fn tree_lines(out: &mut Out, node: u64, tree: u64)
    requires { node ≤ 192 }
    ensures { Prints out.old (concat (tree_lines node tree)) out.new }
{
    match tree {
        LITERAL_TRUE => out.bytes(b"node=0,lit,1\n"),
        LITERAL_FALSE => out.bytes(b"node=0,lit,0\n"),
        _ => like_lines(out, node),
    }
}

// The nodes, policy by policy.
fn nodes(out: &mut Out, seed: u64, count: u64)
    requires { count ≤ 64 }
    ensures { Prints out.old (concat (nodes_from 0 (drawn seed count))) out.new }
{
    let mut state = seed;
    let mut node = 0;
    for _i in 0..count {
        let p = drawn(state);
        tree_lines(out, node, p.tree);
        node += nodes_in(p.tree);
        state = p.state;
    }
}

// An effect between commas.
fn effect_word(out: &mut Out, effect: u64)
    ensures { Prints out.old ((44 ∷ effect_as effect) ++ (44 ∷ [])) out.new }
{
    match effect {
        PERMIT => out.bytes(b",permit,"),
        _ => out.bytes(b",forbid,"),
    }
}

// A policy's line.
fn policy_line(out: &mut Out, id: u64, effect: u64, root: u64)
    ensures { Prints out.old (printed "policy" (digits id ∷ effect_as effect ∷ digits root ∷ [])) out.new }
{
    out.bytes(b"policy=");
    out.number(id);
    effect_word(out, effect);
    out.number(root);
    out.byte(b'\n');
}

// The policies: of the nodes of each the last is its root.
fn policies(out: &mut Out, seed: u64, count: u64)
    requires { count ≤ 64 }
    ensures { Prints out.old (concat (policies_from 0 0 (drawn seed count))) out.new }
{
    let mut state = seed;
    let mut node = 0;
    for i in 0..count {
        let p = drawn(state);
        node += nodes_in(p.tree);
        policy_line(out, FIRST_ID + i, p.effect, node - 1);
        state = p.state;
    }
}

// ---- the sheet and the call

// The whole sheet.
fn print(out: &mut Out, seed: u64, count: u64)
    requires { count ≤ 64 }
    ensures { Prints out.old (load seed count) out.new }
{
    out.bytes(b"sheet=partial\ntext=Client\ntext=Action\ntext=Tariff\ntext=quote\ntext=name\n");
    ids(out, count);
    out.bytes(
        b"kind=0,e\nkind=1,a\nkind=2,e\ntype=bool\ntype=string\ntype=record\ntype=record,4,r,1\nshape=2,-\nshape=2,-\nshape=2,-\nvalue=bool,0\nvalue=bool,1\nprincipal=0,?\naction=1,3\nresource=2,?\ncontext=3,?\nday=2000-01-01\n",
    );
    nodes(out, seed, count);
    policies(out, seed, count);
}

// The sheet at a buffer's start, and how many bytes it has.
fn sheet(buffer: &mut [u8], seed: u64, count: u64) -> usize
    requires { count ≤ 64 }
    ensures { Written buffer.old 0 (load seed count) buffer.new result }
{
    let mut out = Out::new(buffer);
    print(&mut out, seed, count);
    out.len()
}

// The test load that a seed and a number of policies name.
pub fn load(seed: u64, policies: u32, out: &mut [u8]) -> Returned
    ensures { Loaded seed policies out.old result.number result.line result.length out.new }
{
    if policies < 1 || policies > MOST {
        return Returned {
            number: u32::from(Fault::PolicyCount),
            line: 0,
            length: 0,
        };
    }
    let count = policies as u64;
    let n = sheet(&mut out[..0], seed, count);
    if out.len() < n {
        return Returned {
            number: u32::from(Fault::ShortBuffer),
            line: 0,
            length: n,
        };
    }
    sheet(out, seed, count);
    Returned {
        number: 0,
        line: 0,
        length: n,
    }
}
