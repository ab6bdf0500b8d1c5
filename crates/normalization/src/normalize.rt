// Normalizing a line: it is dropped, or brought to one form.
ghost use Rattle.std.specs.Prelude.{◌≡◌, pos, eqb};
ghost use Rattle.std.proofs.Math.Option.{none};
ghost use Rattle.rules.specs.Lists.{all};
ghost use Rattle.rules.specs.Arithmetic.{is_zero, related};
ghost use Rattle.rules.specs.Lines.{meet};
ghost use Rattle.rules.specs.Normalize.{normal_line};
ghost use Rattle.theory_resolution.specs.NormalLine.{having};
ghost use Rattle.lines.specs.Line.{meaning, Shaped};
ghost use Rattle.normalization.specs.Reduced.{Bounded};
ghost use Rattle.normalization.specs.Normal.{normalized};

use crate::reduce::reduce;
use lines::line::Line;
use lines::order::Order;
use lines::row::leading;
use machine::sign::zero_related;
use masks::meets;
use rules_types::limits::Limits;

// The line that is left, where it is not dropped.
#[derive(Clone, Copy)]
pub struct Normalized {
    pub dropped: bool,
    pub line: Line,
}

// Some Boolean variable has both signs.
pub fn clashes(line: Line) -> bool
    ensures { result ≡ meet (meaning line).positive (meaning line).negative }
{
    meets(line.positive, line.negative)
}

// All coefficients are 0: in any order no round comes first.
pub fn zero_row(row: [i64; Limits::RATIONALS]) -> bool
    ensures { result ≡ all is_zero row }
{
    leading(Order::rising(), row, 0) == Limits::RATIONALS
}

// Whether 0 is related to the bound; relation 2 is <.
pub fn trivial(relation: u8, bound: i64) -> bool
    ensures { result ≡ related (eqb relation 2) (pos 0) bound }
{
    zero_related(relation == 2, bound)
}

// Without a constraint.
pub fn unconstrained(line: Line) -> Line
    ensures result_value { meaning result ≡ having (meaning line) none }
    ensures shaped { Shaped result }
{
    Line {
        positive: line.positive,
        negative: line.negative,
        relation: 0,
        coefficients: [0 as i64; Limits::RATIONALS],
        bound: 0,
    }
}

pub fn normalize(line: Line) -> Normalized
    requires shaped { Shaped line }
    requires bounded { Bounded line }
    ensures result_value { normalized result ≡ normal_line (meaning line) }
    ensures shaped_2 { Shaped result.line }
{
    if clashes(line) {
        return Normalized {
            dropped: true,
            line: line,
        };
    }
    let relation = line.relation;
    if relation == 0 {
        return Normalized {
            dropped: false,
            line: line,
        };
    }
    let row = line.coefficients;
    if !zero_row(row) {
        return Normalized {
            dropped: false,
            line: reduce(line),
        };
    }
    if trivial(relation, line.bound) {
        return Normalized {
            dropped: true,
            line: line,
        };
    }
    Normalized {
        dropped: false,
        line: unconstrained(line),
    }
}
