// 02, (v): the one part of a clause that an edition adds.
ghost use Rattle.std.specs.Prelude.{◌≡◌, ◌<◌};
ghost use Rattle.rules_types.specs.Limits.{rationals};
ghost use Rattle.theory_splitting.specs.Editions.{non_negative_line};
ghost use Rattle.lines.specs.Line.{meaning, Ready};

use lines::line::Line;
use rules_types::limits::Limits;

// Rational variable f is at least 0: -x ≤ 0.
pub fn non_negative(f: usize) -> Line
    requires { f < rationals }
    ensures result_value { meaning result ≡ non_negative_line f }
    ensures ready { Ready result }
{
    let mut row = [0 as i64; Limits::RATIONALS];
    row[f] = -1;
    Line {
        positive: 0,
        negative: 0,
        relation: 1,
        coefficients: row,
        bound: 0,
    }
}
