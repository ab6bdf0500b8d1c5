// "the result of two earlier lines, neither wide nor dropped by tidying, first parent positive; by a mark at most one parent has a
// condition".
ghost use Rattle.std.specs.Prelude.{◌≡◌, ◌||◌, ◌*◌, ◌≤◌, ◌<◌, length};
ghost use Rattle.std.proofs.Math.Option.{some};
ghost use Rattle.rules_types.specs.Limits.{step_bytes, all_booleans};
ghost use Rattle.rules.specs.Lines.{rational, boolean, no_constraint};
ghost use Rattle.rules.specs.Checker.{derived};
ghost use Rattle.lines.specs.Line.{meaning, Ready};
ghost use Rattle.steps.specs.Lines.{lines_in, ReadyLines};
ghost use Rattle.resolvents.specs.Resolved.{line_of, Gives};
ghost use Rattle.step_check.specs.Stated.{Holds, States};
ghost use Rattle.step_check.specs.Derived.{suited, narrow, derived_by, resolvent_stated};

use crate::compare::{Stated, compared, unstated};
use lines::line::Line;
use resolvents::resolve::{Resolved, Status, resolve_boolean, resolve_rational};
use rules_types::limits::Limits;
use steps::access::{line_at, origin_at};
use steps::origin::Origin;

// "neither wide nor dropped by tidying".
fn made(r: Resolved) -> Stated
    requires { Gives (line_of r.status r.line) r }
    ensures { Holds (narrow (line_of r.status r.line)) result }
{
    let status = r.status;
    let line = r.line;
    match status {
        Status::Dropped => unstated(),
        Status::Overflows => unstated(),
        Status::Made => Stated {
            found: true,
            line: line,
        },
    }
}

// A rational variable beyond the limit occurs in no line.
fn by_rational(f: usize, upper: Line, lower: Line) -> Stated
    requires ready { Ready upper }
    requires ready_2 { Ready lower }
    ensures { Holds (derived (rational f) (some (meaning upper)) (some (meaning lower))) result }
{
    if Limits::RATIONALS <= f {
        return unstated();
    }
    if !upper.has_positive_rational(f) {
        return unstated();
    }
    if !lower.has_negative_rational(f) {
        return unstated();
    }
    made(resolve_rational(f, upper, lower))
}

// At most one has a constraint.
fn single(upper: Line, lower: Line) -> bool
    ensures { result ≡ no_constraint (meaning upper).constraint || no_constraint (meaning lower).constraint }
{
    if upper.relation == 0 {
        return true;
    }
    lower.relation == 0
}

// It is positive in the first and negative in the second, and at most one has a constraint.
fn resolvable(i: usize, upper: Line, lower: Line) -> bool
    requires { i < all_booleans }
    ensures { result ≡ suited (boolean i) (meaning upper) (meaning lower) }
{
    if !upper.has_positive_boolean(i) {
        return false;
    }
    if !lower.has_negative_boolean(i) {
        return false;
    }
    single(upper, lower)
}

// A Boolean variable beyond the limit occurs in no line.
fn by_boolean(i: usize, upper: Line, lower: Line) -> Stated
    requires ready { Ready upper }
    requires ready_2 { Ready lower }
    ensures { Holds (derived (boolean i) (some (meaning upper)) (some (meaning lower))) result }
{
    if Limits::ALL_BOOLEANS <= i {
        return unstated();
    }
    if !resolvable(i, upper, lower) {
        return unstated();
    }
    made(resolve_boolean(i, upper, lower))
}

// By the variable that an origin names.
fn by_named(origin: Origin, upper: Line, lower: Line) -> Stated
    requires ready { Ready upper }
    requires ready_2 { Ready lower }
    ensures { Holds (derived_by origin (some (meaning upper)) (some (meaning lower))) result }
{
    let how = origin.how;
    let which = origin.which as usize;
    if how == 1 {
        return by_rational(which, upper, lower);
    }
    if how == 2 {
        return by_boolean(which, upper, lower);
    }
    unstated()
}

// The resolvent that these bytes name, if they are its step's: its parents are among the first i lines.
pub fn derived(proof: &[u8], i: usize, bytes: [u8; Limits::STEP_BYTES]) -> Stated
    requires i_in_bounds { step_bytes * i ≤ length proof.now }
    requires ready_lines { ReadyLines proof.now i }
    ensures { States (resolvent_stated (lines_in proof.now i) bytes) bytes result }
{
    let origin = origin_at(&bytes, 0);
    let first = origin.first as usize;
    let second = origin.second as usize;
    if i <= first {
        return unstated();
    }
    if i <= second {
        return unstated();
    }
    let upper = line_at(proof, first);
    let lower = line_at(proof, second);
    let s = by_named(origin, upper, lower);
    compared(origin, s, bytes)
}
