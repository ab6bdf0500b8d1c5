// A line of the proof in machine words: two masks of Boolean variables, and a constraint.
ghost use Rattle.std.specs.Prelude.{◌≡◌, ◌<◌};
ghost use Rattle.rules_types.specs.Limits.{all_booleans, rationals};
ghost use Rattle.rules.specs.Lines.{is_empty, positively, negatively, rational, boolean};
ghost use Rattle.rules.specs.Elimination.{round_of, overflows};
ghost use Rattle.theory_saturation.specs.Order.{Ordered};
ghost use Rattle.lines.specs.Order.{variables_of};
ghost use Rattle.lines.specs.Line.{meaning, bare_line, Shaped, Ready};

use crate::order::Order;
use crate::row::{leading, overflowing_row};
use machine::sign::{in_range, is_negative, is_positive};
use masks::{lowest, member};
use rules_types::limits::Limits;

#[derive(Clone, Copy)]
pub struct Line {
    // Bit i: Boolean variable i.
    pub positive: u32,
    pub negative: u32,
    // 0 without a constraint, 1 for ≤, 2 for <.
    pub relation: u8,
    pub coefficients: [i64; Limits::RATIONALS],
    pub bound: i64,
}

impl Line {
    // Without a constraint.
    pub fn bare(positive: u32, negative: u32) -> Line
        ensures result_value { meaning result ≡ bare_line positive negative }
        ensures ready { Ready result }
    {
        Line {
            positive: positive,
            negative: negative,
            relation: 0,
            coefficients: [0 as i64; Limits::RATIONALS],
            bound: 0,
        }
    }

    pub fn is_empty(self) -> bool
        ensures { result ≡ is_empty (meaning self) }
    {
        if self.positive != 0 {
            return false;
        }
        if self.negative != 0 {
            return false;
        }
        self.relation == 0
    }

    // It bounds rational variable f from above.
    pub fn has_positive_rational(self, f: usize) -> bool
        requires f_lt_rationals { f < rationals }
        requires shaped { Shaped self }
        ensures { result ≡ positively (rational f) (meaning self) }
    {
        is_positive(self.coefficients[f])
    }

    // It bounds rational variable f from below.
    pub fn has_negative_rational(self, f: usize) -> bool
        requires f_lt_rationals { f < rationals }
        requires shaped { Shaped self }
        ensures { result ≡ negatively (rational f) (meaning self) }
    {
        is_negative(self.coefficients[f])
    }

    pub fn has_positive_boolean(self, i: usize) -> bool
        requires { i < all_booleans }
        ensures { result ≡ positively (boolean i) (meaning self) }
    {
        member(self.positive, i)
    }

    pub fn has_negative_boolean(self, i: usize) -> bool
        requires { i < all_booleans }
        ensures { result ≡ negatively (boolean i) (meaning self) }
    {
        member(self.negative, i)
    }

    // The round that it belongs to: the place of the first variable of the order that it contains.
    pub fn round(self, order: Order) -> usize
        requires shaped { Shaped self }
        requires ordered { Ordered (variables_of order) }
        ensures { result ≡ round_of (variables_of order) (meaning self) }
    {
        let row = self.coefficients;
        leading(order, row, lowest(self.positive | self.negative))
    }

    // Some number is no amount.
    pub fn overflows(self) -> bool
        requires { Shaped self }
        ensures { result ≡ overflows (meaning self) }
    {
        let row = self.coefficients;
        if overflowing_row(row) {
            return true;
        }
        !in_range(self.bound)
    }
}
