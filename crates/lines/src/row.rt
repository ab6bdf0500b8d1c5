// Rows of eight coefficients, scanned from the front or in the order of rounds.
ghost use Rattle.std.specs.Prelude.{◌≡◌, not, ◌≤◌};
ghost use Rattle.rules_types.specs.Limits.{all_booleans};
ghost use Rattle.rules.specs.Lists.{any};
ghost use Rattle.rules.specs.Problem.{in_range};
ghost use Rattle.theory_saturation.specs.Order.{Ordered};
ghost use Rattle.lines.specs.Order.{variables_of};
ghost use Rattle.lines.specs.Forms.{leading};

use crate::order::{Order, boolean_round};
use machine::sign::{in_range, is_zero};
use rules_types::limits::Limits;

// Some coefficient is no amount.
pub fn overflowing_row(row: [i64; Limits::RATIONALS]) -> bool
    ensures { result ≡ any (λ z. not (in_range z)) row }
{
    let mut i = 0;
    while i < Limits::RATIONALS {
        if !in_range(row[i]) {
            return true;
        }
        i += 1;
    }
    false
}

// The first round whose rational variable has a coefficient other than 0; without one, `rest` rounds on.
pub fn leading(order: Order, row: [i64; Limits::RATIONALS], rest: usize) -> usize
    requires ordered { Ordered (variables_of order) }
    requires rest_le_all_booleans { rest ≤ all_booleans }
    ensures { result ≡ leading order.rationals row rest }
{
    let mut t = 0;
    while t < Limits::RATIONALS {
        let f = order.rational(t);
        if !is_zero(row[f]) {
            return t;
        }
        t += 1;
    }
    boolean_round(rest)
}
