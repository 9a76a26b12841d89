// Why a call refuses, and the number that callers know it by.
#![tactic(auto)]

ghost use Rattle.std.specs.Prelude.{◌≡◌};
ghost use Rattle.faults.specs.Numbers.{number_at};

// A refusal of the table that callers know, with its number there. Number 9 has left the table, and is not given again.
#[derive(Clone, Copy, Debug, PartialEq, Eq, Hash)]
pub enum Fault {
    // a lent work slice has too few words
    ShortWork = 1,
    // the sheet has too many bytes
    LongSheet = 2,
    // form, length, range, key, key order or item count wrong, or a line missing
    Form = 3,
    // one line too many of a key, or one use of nodes
    TooMany = 4,
    // a reference absent; a repeat or a wrong order
    Reference = 5,
    // a tree too deep
    Depth = 6,
    // typing, request kind or shape
    Typing = 7,
    // a node used twice or never
    Uses = 8,
    // the lent buffer is shorter than the answer
    ShortBuffer = 10,
    // two sheets do not agree
    Agreement = 11,
    // a line that cannot be tried
    Preview = 12,
    // a test load of so many policies
    PolicyCount = 13,
    // too many rows asked
    ManyRows = 14,
    // a text that is not there or contradicts a known one
    Texts = 15,
}

impl From<Fault> for u32 {
    ghost from_gives = { λ fault n. n ≡ number_at fault };

    fn from(fault: Fault) -> u32 {
        fault as u32
    }
}

// A refusal and the line that it names, 0 where it names none.
#[derive(Clone, Copy, Debug, PartialEq, Eq, Hash)]
pub struct Refusal {
    pub fault: Fault,
    pub line: usize,
}

// A refusal that names no line.
impl From<Fault> for Refusal {
    ghost from_gives = { λ fault r. r ≡ record { fault = fault; line = 0 } };

    fn from(fault: Fault) -> Refusal {
        Refusal { fault, line: 0 }
    }
}
