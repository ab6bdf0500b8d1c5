// A round's pairs: the uppers in the order of the steps, each with the lowers, to the end of the elimination if it comes.
ghost use Rattle.std.specs.Prelude.{◌≡◌, ◌+◌, ◌*◌, ◌≤◌};
ghost use Rattle.lines.specs.Order.{Scheduled};
ghost use Rattle.rules_types.specs.Limits.{most_steps};
ghost use Rattle.placing.specs.Point.{Standing, Reaches};
ghost use Rattle.placing.specs.declared.point.Progress.TheVariants.{Running};
ghost use Rattle.rounds.specs.Round.{after_round};

use crate::pair::{Parents, pair};
use crate::side::next;
use lines::order::VariableRound;
use placing::point::{Point, is_running};
use rules_types::limits::Limits;
use steps::access::line_at;

// "The first empty line, wide result or line too many ends the course."
pub fn round(proof: &mut [u8], current: VariableRound, from: Point, limits: Limits) -> Point
    requires standing { Standing limits proof.old from.steps }
    requires progress_value { from.progress ≡ Running }
    requires scheduled { Scheduled current }
    requires steps_le_most_steps { limits.steps ≤ most_steps }
    requires pairs_bound { from.pairs ≤ 900000000000 }
    ensures reaches { Reaches limits proof.old from proof.new result
        (after_round limits current proof.old from) }
    ensures pairs_bound_2 { result.pairs ≤ from.pairs + most_steps * most_steps }
{
    let m = from.steps;
    let v = current.variable;
    let first = next(proof, 0, m, current, false);
    let mut i = next(proof, 0, m, current, true);
    let mut p = from;
    'pairs: while i < m {
        let upper = line_at(proof, i);
        let mut j = first;
        while j < m {
            let parents = Parents {
                variable: v,
                upper: i,
                lower: j,
            };
            p = pair(proof, parents, upper, p, limits);
            let progress = p.progress;
            if !is_running(progress) {
                break 'pairs;
            }
            j = next(proof, j + 1, m, current, false);
        }
        i = next(proof, i + 1, m, current, true);
    }
    p
}
