// One round: its variable's value is taken from its lines.
ghost use Rattle.std.specs.Prelude.{◌*◌, ◌≤◌, ◌<◌, length};
ghost use Rattle.rules_types.specs.Limits.{step_bytes, all_booleans};
ghost use Rattle.rules.specs.Lines.{rational, boolean};
ghost use Rattle.theory_saturation.specs.Order.{Ordered};
ghost use Rattle.lines.specs.Order.{variables_of, boolean_round, ScheduledRational};
ghost use Rattle.steps.specs.Lines.{lines_in, ReadyLines};
ghost use Rattle.models.specs.Model.{assignment};
ghost use Rattle.values.specs.Range.{InRange};
ghost use Rattle.values.specs.Round.{own, own_of};
ghost use Rattle.walk.specs.Reached.{WithVariable, Assigned};

use crate::assign::{with_boolean, with_rational};
use lines::order::{Order, RationalRound};
use models::model::Model;
use values::boolean::boolean_value;
use values::rational::rational_value;

pub fn assign_rational(
    proof: &[u8],
    n: usize,
    current: RationalRound,
    model: Model,
) -> Option<Model>
    requires n_in_bounds { step_bytes * n ≤ length proof.now }
    requires ready_lines { ReadyLines proof.now n }
    requires scheduled_rational { ScheduledRational current }
    requires in_range { InRange model }
    ensures { Assigned result (rational current.rational) (own_of current (lines_in proof.now n))
        (assignment model) }
{
    let x = rational_value(proof, n, current, model)?;
    with_rational(model, current.rational, x)
}

pub fn assign_boolean(proof: &[u8], n: usize, order: Order, i: usize, model: Model) -> Model
    requires n_in_bounds { step_bytes * n ≤ length proof.now }
    requires ready_lines { ReadyLines proof.now n }
    requires ordered { Ordered (variables_of order) }
    requires i_lt_all_booleans { i < all_booleans }
    requires in_range { InRange model }
    ensures { WithVariable result (boolean i) (own (variables_of order) (boolean_round i) (lines_in proof.now n))
        (assignment model) }
{
    let yes = boolean_value(proof, n, order, i, model);
    with_boolean(model, i, yes)
}
