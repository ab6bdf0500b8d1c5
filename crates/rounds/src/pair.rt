// One pair of a round: counted, and its resolvent put to the tests of a line where it is not dropped.
ghost use Rattle.std.specs.Prelude.{◌≡◌, true, ◌<◌};
ghost use Rattle.rules.specs.Lines.{positively, negatively};
ghost use Rattle.rules.specs.Resolve.{resolve};
ghost use Rattle.lines.specs.Order.{variable_of, Ranged};
ghost use Rattle.lines.specs.Line.{meaning, Ready};
ghost use Rattle.steps.specs.Lines.{line_at};
ghost use Rattle.resolvents.specs.Resolved.{Gives};
ghost use Rattle.placing.specs.Point.{Standing, Reaches};
ghost use Rattle.rounds.specs.Pairs.{how_of, which_of, origin_for, left, counted, tried_pair, Pairable, settled_by};

use lines::line::Line;
use lines::order::Variable;
use placing::admit::admit;
use placing::point::{Point, Progress};
use resolvents::resolve::{Resolved, Status, resolve_boolean, resolve_rational};
use rules_types::limits::Limits;
use steps::access::line_at;
use steps::origin::{Origin, Step};

// A pair by the numbers of its two lines, and the variable that it is resolved by.
#[derive(Clone, Copy)]
pub struct Parents {
    pub variable: Variable,
    pub upper: usize,
    pub lower: usize,
}

fn resolve(v: Variable, upper: Line, lower: Line) -> Resolved
    requires ranged { Ranged v }
    requires ready { Ready upper }
    requires ready_2 { Ready lower }
    requires upper_value { positively (variable_of v) (meaning upper) ≡ true }
    requires lower_value { negatively (variable_of v) (meaning lower) ≡ true }
    ensures { Gives (resolve (variable_of v) (meaning upper) (meaning lower)) result }
{
    match v {
        Variable::Rational(f) => resolve_rational(f, upper, lower),
        Variable::Boolean(i) => resolve_boolean(i, upper, lower),
    }
}

// "how (0 loaded, 1 by a figure, 2 by a mark)".
fn how_of(v: Variable) -> u8
    ensures { result ≡ how_of v }
{
    match v {
        Variable::Rational(_) => 1,
        Variable::Boolean(_) => 2,
    }
}

fn which_of(v: Variable) -> u8
    requires { Ranged v }
    ensures { result ≡ which_of v }
{
    match v {
        Variable::Rational(f) => f as u8,
        Variable::Boolean(i) => i as u8,
    }
}

fn origin_of(parents: Parents) -> Origin
    requires { Ranged parents.variable }
    ensures { result ≡ origin_for parents }
{
    let v = parents.variable;
    Origin {
        how: how_of(v),
        which: which_of(v),
        first: parents.upper as u64,
        second: parents.lower as u64,
    }
}

// The point with one pair more.
fn counted(p: Point, progress: Progress) -> Point
    requires { p.pairs < 1000000000000 }
    ensures { result ≡ counted p progress }
{
    Point {
        progress: progress,
        steps: p.steps,
        pairs: p.pairs + 1,
    }
}

// What is left of a resolvent: dropped, an overflow, or a line put to the tests.
fn settle(proof: &mut [u8], parents: Parents, r: Resolved, p: Point, limits: Limits) -> Point
    requires standing { Standing limits proof.old p.steps }
    requires pairable { Pairable proof.old parents p }
    requires gives { Gives (left r) r }
    ensures { Reaches limits proof.old p proof.new result (settled_by r limits proof.old parents p) }
{
    let status = r.status;
    match status {
        Status::Dropped => counted(p, Progress::Running),
        Status::Overflows => counted(p, Progress::Overflow),
        Status::Made => {
            let line = r.line;
            let next = counted(p, Progress::Running);
            let origin = origin_of(parents);
            admit(
                proof,
                next,
                Step {
                    origin: origin,
                    line: line,
                },
                limits,
            )
        }
    }
}

// "Every pair counts, dropped ones too." The upper line is given.
pub fn pair(proof: &mut [u8], parents: Parents, upper: Line, p: Point, limits: Limits) -> Point
    requires standing { Standing limits proof.old p.steps }
    requires pairable { Pairable proof.old parents p }
    requires upper_value { upper ≡ line_at proof.old parents.upper }
    ensures { Reaches limits proof.old p proof.new result (tried_pair limits proof.old parents p) }
{
    let lower = line_at(proof, parents.lower);
    let v = parents.variable;
    let r = resolve(v, upper, lower);
    settle(proof, parents, r, p, limits)
}
