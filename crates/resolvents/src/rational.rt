// The resolvent by a rational variable (Fourier-Motzkin), before it is normalized.
ghost use Rattle.std.specs.Prelude.{◌≡◌, true, ◌<◌, max, pos, nat_abs};
ghost use Rattle.rules_types.specs.Limits.{rationals};
ghost use Rattle.rules.specs.Lines.{rational, positively, negatively};
ghost use Rattle.rules.specs.Resolve.{resolvent};
ghost use Rattle.theory_vectors.specs.Amounts.{Small};
ghost use Rattle.lines.specs.Line.{meaning, Shaped, Ready};
ghost use Rattle.normalization.specs.Reduced.{Bounded};

use lines::line::Line;
use machine::sign::size;
use rows::combine::{combine, combine_rows};

// < if either is <.
fn stricter(a: u8, b: u8) -> u8
    ensures { result ≡ max a b }
{
    if a < b { b } else { a }
}

// The size of an amount, as a factor.
fn factor(z: i64) -> i64
    requires { Small z }
    ensures { result ≡ pos (nat_abs z) }
{
    size(z) as i64
}

pub fn resolvent_rational(f: usize, upper: Line, lower: Line) -> Line
    requires f_lt_rationals { f < rationals }
    requires ready { Ready upper }
    requires ready_2 { Ready lower }
    requires upper_value { positively (rational f) (meaning upper) ≡ true }
    requires lower_value { negatively (rational f) (meaning lower) ≡ true }
    ensures result_value { meaning result ≡ resolvent (rational f) (meaning upper) (meaning lower) }
    ensures shaped { Shaped result }
    ensures bounded { Bounded result }
{
    let us = upper.coefficients;
    let ls = lower.coefficients;
    let a = us[f];
    let c = factor(ls[f]);
    let row = combine_rows(c, us, a, ls);
    let bound = combine(c, upper.bound, a, lower.bound);
    Line {
        positive: upper.positive | lower.positive,
        negative: upper.negative | lower.negative,
        relation: stricter(upper.relation, lower.relation),
        coefficients: row,
        bound: bound,
    }
}
