// Whether a line holds under an assignment: one of its literals, or its constraint.
ghost use Rattle.std.specs.Prelude.{◌≡◌};
ghost use Rattle.rules.specs.Lines.{a_literal_holds, the_constraint_holds, line_holds};
ghost use Rattle.lines.specs.Line.{meaning, Ready};
ghost use Rattle.models.specs.Model.{assignment};
ghost use Rattle.values.specs.Range.{InRange};

use crate::sum::sum;
use lines::line::Line;
use masks::meets;
use models::model::Model;
use rows::product::scaled;

// A positive variable is yes, or a negative one is no.
pub fn literal_holds(line: Line, model: Model) -> bool
    ensures { result ≡ a_literal_holds (assignment model) (meaning line) }
{
    let yes = model.booleans;
    meets(line.positive, yes) || meets(line.negative, !yes)
}

fn constraint_holds(line: Line, model: Model) -> bool
    requires ready { Ready line }
    requires in_range { InRange model }
    ensures { result ≡ the_constraint_holds (assignment model) (meaning line).constraint }
{
    if line.relation == 0 {
        return false;
    }
    let s = sum(line.coefficients, model.numerators);
    let b = scaled(line.bound, model.denominator);
    if line.relation == 2 { s < b } else { s <= b }
}

#[tactic(auto, unfolding(rules::specs::Lines::line_holds))]
pub fn line_holds(line: Line, model: Model) -> bool
    requires ready { Ready line }
    requires in_range { InRange model }
    ensures { result ≡ line_holds (assignment model) (meaning line) }
{
    literal_holds(line, model) || constraint_holds(line, model)
}
