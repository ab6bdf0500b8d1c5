// A constraint divided by its content.
ghost use Rattle.std.specs.Prelude.{◌≡◌, false};
ghost use Rattle.rules.specs.Lists.{all};
ghost use Rattle.rules.specs.Arithmetic.{is_zero};
ghost use Rattle.lines.specs.Line.{meaning, Shaped};
ghost use Rattle.normalization.specs.Reduced.{Bounded, reduced_line};

use lines::line::Line;
use rows::content::{content, divide, quotient};

// "Other conditions are divided by the greatest common divisor of coefficients and bound."
pub fn reduce(line: Line) -> Line
    requires shaped { Shaped line }
    requires coefficients_value { all is_zero line.coefficients ≡ false }
    requires bounded { Bounded line }
    ensures result_value { meaning result ≡ reduced_line (meaning line) }
    ensures shaped_2 { Shaped result }
{
    let row = line.coefficients;
    let bound = line.bound;
    let g = content(row, bound);
    let out = divide(row, g);
    let end = quotient(bound, g);
    Line {
        positive: line.positive,
        negative: line.negative,
        relation: line.relation,
        coefficients: out,
        bound: end,
    }
}
