// "A mark is yes exactly if some line of its turn containing it positively has nothing else that holds."
ghost use Rattle.std.specs.Prelude.{◌≡◌, ◌*◌, ◌≤◌, ◌<◌, length};
ghost use Rattle.rules_types.specs.Limits.{all_booleans, step_bytes};
ghost use Rattle.rules.specs.Values.{without_boolean, boolean_value};
ghost use Rattle.theory_saturation.specs.Order.{Ordered};
ghost use Rattle.lines.specs.Order.{variables_of, boolean_round};
ghost use Rattle.lines.specs.Line.{meaning, Ready};
ghost use Rattle.steps.specs.Lines.{lines_in, ReadyLines};
ghost use Rattle.models.specs.Model.{assignment};
ghost use Rattle.values.specs.Range.{InRange};
ghost use Rattle.values.specs.Boolean.{forces};
ghost use Rattle.values.specs.Round.{own};

use crate::holds::line_holds;
use lines::line::Line;
use lines::order::{Order, boolean_round};
use masks::without;
use models::model::Model;
use steps::access::line_at;

fn without_boolean(line: Line, i: usize) -> Line
    requires i_lt_all_booleans { i < all_booleans }
    requires ready { Ready line }
    ensures { (meaning result ≡ without_boolean i (meaning line)) × Ready result }
{
    Line {
        positive: without(line.positive, i),
        negative: without(line.negative, i),
        ..line
    }
}

// A line of the variable's round makes it yes. The variable is asked for first: few lines have it.
fn forces(line: Line, order: Order, i: usize, model: Model) -> bool
    requires ordered { Ordered (variables_of order) }
    requires i_lt_all_booleans { i < all_booleans }
    requires ready { Ready line }
    requires in_range { InRange model }
    ensures { result ≡ forces (variables_of order) (assignment model) i (meaning line) }
{
    if !line.has_positive_boolean(i) {
        return false;
    }
    if line.round(order) != boolean_round(i) {
        return false;
    }
    let rest = without_boolean(line, i);
    !line_holds(rest, model)
}

pub fn boolean_value(proof: &[u8], n: usize, order: Order, i: usize, model: Model) -> bool
    requires n_in_bounds { step_bytes * n ≤ length proof.now }
    requires ready_lines { ReadyLines proof.now n }
    requires ordered { Ordered (variables_of order) }
    requires i_lt_all_booleans { i < all_booleans }
    requires in_range { InRange model }
    ensures { result ≡ boolean_value (assignment model) i (own (variables_of order) (boolean_round i) (lines_in proof.now n)) }
{
    for j in 0..n {
        if forces(line_at(proof, j), order, i, model) {
            return true;
        }
    }
    false
}
