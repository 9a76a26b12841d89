// Rows of residuals that are all values: a set or a record is made of such rows alone.
#![tactic(auto)]

ghost use Rattle.std.specs.Prelude.{◌≡◌};
ghost use Rattle.valued.specs.Values.{all_values};

use residual::{ROW, VALUE_ROW, WHAT};

// Whether each of these rows is a value.
pub fn all_values(operands: &[u32]) -> bool
    ensures { result ≡ all_values operands.now }
{
    let (rows, _) = operands.as_chunks::<ROW>();
    rows.iter().all(|row| row[WHAT] == VALUE_ROW)
}
