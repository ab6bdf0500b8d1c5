// A rational variable's value in its round: none, where a gathered bound or the value is beyond the range of amounts.
ghost use Rattle.std.specs.Prelude.{◌*◌, ◌≤◌, length};
ghost use Rattle.rules_types.specs.Limits.{step_bytes};
ghost use Rattle.lines.specs.Order.{ScheduledRational};
ghost use Rattle.steps.specs.Lines.{lines_in, ReadyLines};
ghost use Rattle.models.specs.Model.{assignment};
ghost use Rattle.values.specs.Range.{InRange};
ghost use Rattle.values.specs.Chosen.{Chosen};

use crate::gather::gathered;
use fractions::bound::value;
use fractions::fraction::Fraction;
use lines::order::RationalRound;
use models::model::Model;

pub fn rational_value(
    proof: &[u8],
    n: usize,
    current: RationalRound,
    model: Model,
) -> Option<Fraction>
    requires n_in_bounds { step_bytes * n ≤ length proof.now }
    requires ready_lines { ReadyLines proof.now n }
    requires scheduled_rational { ScheduledRational current }
    requires in_range { InRange model }
    ensures { Chosen result (assignment model) current (lines_in proof.now n) }
{
    let bounds = gathered(proof, n, current, model)?;
    let x = value(bounds.lower, bounds.upper);
    if x.beyond() {
        return None;
    }
    Some(x)
}
