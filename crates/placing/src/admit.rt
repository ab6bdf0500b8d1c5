// A line put to the tests: dropped by an earlier one, one too many, empty; and else held.
ghost use Rattle.std.specs.Prelude.{◌≡◌, cond};
ghost use Rattle.rules.specs.Lines.{is_empty};
ghost use Rattle.lines.specs.Line.{meaning, Ready};
ghost use Rattle.steps.specs.Origin.{Named};
ghost use Rattle.placing.specs.Point.{Standing, Reaches, added};
ghost use Rattle.placing.specs.declared.point.Progress.TheVariants.{Running, Empty};

use crate::covered::covered;
use crate::point::{Point, Progress};
use lines::line::Line;
use rules_types::limits::Limits;
use steps::encode::encode;
use steps::origin::Step;
use steps::store::put;

fn progress_of(line: Line) -> Progress
    ensures { result ≡ cond (is_empty (meaning line)) Empty Running }
{
    if line.is_empty() {
        return Progress::Empty;
    }
    Progress::Running
}

// The step goes behind the others, if no earlier line drops it and there is room for it.
pub fn admit(proof: &mut [u8], p: Point, step: Step, limits: Limits) -> Point
    requires standing { Standing limits proof.old p.steps }
    requires ready { Ready step.line }
    requires named { Named step.origin }
    ensures { Reaches limits proof.old p proof.new result (added limits proof.old p step) }
{
    let n = p.steps;
    let line = step.line;
    if covered(proof, n, line) {
        return Point {
            progress: Progress::Running,
            steps: n,
            pairs: p.pairs,
        };
    }
    if limits.steps as usize <= n {
        return Point {
            progress: Progress::OutOfSteps,
            steps: n,
            pairs: p.pairs,
        };
    }
    let bytes = encode(step);
    put(proof, n, bytes);
    Point {
        progress: progress_of(line),
        steps: n + 1,
        pairs: p.pairs,
    }
}
