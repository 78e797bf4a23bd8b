//! How many rows there are.

ghost use Rattle.std.specs.Prelude.{◌≡◌, ◌+◌, ◌≤◌, length, IfOk};
ghost use Rattle.load.specs.Sizes.{few, operand_count, row_limit};

use crate::refusal::Refusal;
use syntax::Equation;

/// The most rows of a table.
pub(crate) const ROWS: usize = 64;

/// Refuses an equation too many, at its place.
pub(crate) fn check_count(excess: Option<usize>) -> Result<(), Refusal>
    ensures { result ≡ few excess }
{
    excess.map_or(Ok(()), |place| Err(Refusal::TooMany(place)))
}

/// The number of operand rows. Refuses the equation in which a row is one too many.
pub(crate) fn count_operands(equations: &[Equation]) -> Result<usize, Refusal>
    requires { length equations.now ≤ 64 }
    ensures value { result ≡ operand_count equations.now }
    ensures room { IfOk result (λ rows. length equations.now + rows ≤ row_limit) }
{
    let room = ROWS - equations.len();
    let mut rows = 0;
    for equation in equations {
        rows = equation.rows as usize;
        if rows > room {
            return Err(Refusal::TooMany(equation.place));
        }
    }
    Ok(rows)
}
