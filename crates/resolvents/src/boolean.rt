// The resolvent by a Boolean variable (Davis-Putnam), before it is normalized.
ghost use Rattle.std.specs.Prelude.{◌≡◌, ◌<◌};
ghost use Rattle.rules_types.specs.Limits.{all_booleans};
ghost use Rattle.rules.specs.Lines.{boolean};
ghost use Rattle.rules.specs.Resolve.{resolvent, one_of};
ghost use Rattle.lines.specs.Line.{meaning, Ready};

use lines::line::Line;
use masks::without;

// The line whose constraint is taken: the upper one, and without a constraint there the lower.
fn constrained(upper: Line, lower: Line) -> Line
    requires ready { Ready upper }
    requires ready_2 { Ready lower }
    ensures result_value { (meaning result).constraint ≡ one_of (meaning upper).constraint (meaning lower).constraint }
    ensures ready_3 { Ready result }
{
    if upper.relation != 0 {
        return upper;
    }
    lower
}

pub fn resolvent_boolean(i: usize, upper: Line, lower: Line) -> Line
    requires i_lt_all_booleans { i < all_booleans }
    requires ready { Ready upper }
    requires ready_2 { Ready lower }
    ensures result_value { meaning result ≡ resolvent (boolean i) (meaning upper) (meaning lower) }
    ensures ready_3 { Ready result }
{
    let from = constrained(upper, lower);
    let row = from.coefficients;
    Line {
        positive: without(upper.positive | lower.positive, i),
        negative: without(upper.negative | lower.negative, i),
        relation: from.relation,
        coefficients: row,
        bound: from.bound,
    }
}
