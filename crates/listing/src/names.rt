// Words that a number chooses.
ghost use Rattle.std.specs.Prelude.{◌≡◌, [], ◌∷◌, get_or};
ghost use Rattle.sheet.specs.Ascii.{ascii};
ghost use Rattle.sheet.specs.Answer.{value_items};
ghost use Rattle.value.specs.Shapes.{shape_row};
ghost use Rattle.listing.specs.Names.{op_name_def};
ghost use Rattle.listing.specs.Nodes.{letter};

use forms::{
    ADD, ALL, AND, ANY, CONTAINS, EMPTY, EQ, ERR, GET, GETTAG, HAS, HASPATH, HASTAG, IF, IN, IS,
    LE, LIKE, LIT, LT, MUL, NEG, NOT, OR, PART_A, PART_P, PART_R, RECORD_OF, SET_OF, SLOT, SUB,
    VAR,
};
use value::Shape;

// The name of an operation; the forms before and after them have none here.
#[tactic(auto, using(crate::proofs::Wording::op_named))]
pub fn op_name(tag: u32) -> &'static [u8]
    ensures { result.now ≡ ascii (op_name_def tag) }
{
    match tag {
        LIT => b"lit",
        ERR => b"err",
        VAR => b"var",
        AND => b"and",
        OR => b"or",
        EQ => b"eq",
        LT => b"lt",
        LE => b"le",
        ADD => b"add",
        SUB => b"sub",
        MUL => b"mul",
        IN => b"in",
        GETTAG => b"gettag",
        HASTAG => b"hastag",
        CONTAINS => b"contains",
        ALL => b"all",
        ANY => b"any",
        IF => b"if",
        IS => b"is",
        LIKE => b"like",
        GET => b"get",
        HAS => b"has",
        HASPATH => b"haspath",
        NOT => b"not",
        NEG => b"neg",
        EMPTY => b"empty",
        SET_OF => b"set",
        RECORD_OF => b"record",
        SLOT => b"slot",
        _ => b"",
    }
}

// The name of a value's shape.
pub fn shape_name(shape: Shape) -> &'static [u8]
    ensures { result.now ≡ get_or (value_items (shape_row shape [])) 0 [] }
{
    match shape {
        Shape::Bool(_) => b"bool",
        Shape::Long(_) => b"long",
        Shape::Text(_) => b"text",
        Shape::Entity(_, _) => b"entity",
        Shape::Set => b"set",
        Shape::Record => b"record",
    }
}

// A variable after a comma.
#[tactic(auto, using(crate::proofs::Wording::letter_said))]
pub fn part_name(part: u32) -> &'static [u8]
    ensures { result.now ≡ 44 ∷ letter part }
{
    match part {
        PART_P => b",p",
        PART_A => b",a",
        PART_R => b",r",
        _ => b",c",
    }
}
