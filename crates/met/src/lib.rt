// Tables by value, a byte each, in which parents are noted as they are met, and lists of parents asked by them.
#![tactic(auto)]

ghost use Rattle.std.specs.Prelude.{◌≡◌, ◌+◌, ◌≤◌, ◌<◌, length};
ghost use Rattle.met.specs.Noting.{RUN, Entered, Run, RunMet, Skipped};

use words::put;

// So many parents of a list are asked at a time, as most were met before.
const RUN: usize = 8;

// Notes a parent: whether it was noted before. For one whose number the table does not have there is a mark, at place `far`.
pub fn note(met: &mut [u8], marks: &mut [u32], far: usize, value: u32) -> bool
    ensures { Entered far value met.old marks.old met.new marks.new result }
{
    let i = value as usize;
    if i >= met.len() {
        put(marks, far, 1);
        return false;
    }
    if met[i] != 0 {
        return true;
    }
    met[i] = 1;
    false
}

// All the bits of eight words of a list: none of these is greater.
fn bits(list: &[u32], from: usize) -> u32
    requires { from + RUN ≤ length list.now }
    ensures { Run (λ x. x ≤ result) list.now from }
{
    // kept: eight places written out are one test without a branch; a fold over them says no more.
    list[from]
        | list[from + 1]
        | list[from + 2]
        | list[from + 3]
        | list[from + 4]
        | list[from + 5]
        | list[from + 6]
        | list[from + 7]
}

// Whether eight parents of a list, whose numbers the table has, were met.
fn near_met(met: &[u8], list: &[u32], from: usize) -> bool
    requires from_in_bounds { from + RUN ≤ length list.now }
    requires run { Run (λ x. x < length met.now) list.now from }
    ensures { RunMet met.now list.now from result }
{
    met[list[from] as usize]
        & met[list[from + 1] as usize]
        & met[list[from + 2] as usize]
        & met[list[from + 3] as usize]
        & met[list[from + 4] as usize]
        & met[list[from + 5] as usize]
        & met[list[from + 6] as usize]
        & met[list[from + 7] as usize]
        != 0
}

// Whether eight parents of a list were met; not where the table may not have one of their numbers.
fn run_met(met: &[u8], list: &[u32], from: usize) -> bool
    requires { from + RUN ≤ length list.now }
    ensures { RunMet met.now list.now from result }
{
    if bits(list, from) as usize >= met.len() {
        return false;
    }
    near_met(met, list, from)
}

// The place in a list, from this one on, before which all parents were met, eight at a time.
fn runs(met: &[u8], list: &[u32], from: usize) -> usize
    requires { from ≤ length list.now }
    ensures { Skipped met.now list.now from result }
{
    let mut i = from;
    // kept: the place where fewer than eight are left is the answer, which a range's steps do not give.
    while i + RUN <= list.len() {
        if !run_met(met, list, i) {
            return i;
        }
        i += RUN;
    }
    i
}

// The same, asked at every eighth place only: where one of eight was not met, they are met one by one.
pub fn unmet(met: &[u8], list: &[u32], from: usize) -> usize
    requires { from ≤ length list.now }
    ensures { Skipped met.now list.now from result }
{
    if from % RUN != 0 {
        return from;
    }
    if list.len() - from < RUN {
        return from;
    }
    runs(met, list, from)
}
