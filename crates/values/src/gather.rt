// "For a figure, gather the bounds of its turn's lines in which nothing else holds": the tightest on either side, up to the first
// that is beyond the range of amounts, where there are none.
ghost use Rattle.std.specs.Prelude.{◌≡◌, true, ◌*◌, ◌≤◌, ◌<◌, pos, nat_abs, length, get_or};
ghost use Rattle.rules_types.specs.Limits.{rationals, step_bytes};
ghost use Rattle.rules.specs.Values.{bound_of};
ghost use Rattle.theory_bounds.specs.Meets.{rest};
ghost use Rattle.fractions.specs.Meaning.{meaning as fraction_meaning, bound_meaning};
ghost use Rattle.fractions.specs.Range.{Within};
ghost use Rattle.lines.specs.Order.{ScheduledRational};
ghost use Rattle.lines.specs.Line.{constraint_in, meaning, Ready};
ghost use Rattle.steps.specs.Lines.{lines_in, ReadyLines};
ghost use Rattle.models.specs.Model.{value, assignment};
ghost use Rattle.values.specs.Range.{InRange};
ghost use Rattle.values.specs.Gather.{counts, WithLine, GatheredIn};

use crate::holds::literal_holds;
use crate::sum::sum;
use fractions::bound::{Bound, Side, tighter};
use fractions::fraction::Fraction;
use lines::line::Line;
use lines::order::RationalRound;
use models::model::Model;
use rows::product::scaled;
use steps::access::line_at;

#[derive(Clone, Copy)]
pub struct Bounds {
    pub lower: Option<Bound>,
    pub upper: Option<Bound>,
}

// Bound × denominator, less the other terms.
fn rest(line: Line, f: usize, model: Model) -> i64
    requires f_lt_rationals { f < rationals }
    requires ready { Ready line }
    requires in_range { InRange model }
    ensures { result ≡ rest f line.coefficients line.bound (value model.numerators) model.denominator }
{
    let mut others = line.coefficients;
    others[f] = 0;
    scaled(line.bound, model.denominator) - sum(others, model.numerators)
}

// What a line bounds the variable by, the others as chosen.
fn bound_of(line: Line, f: usize, model: Model) -> Fraction
    requires f_lt_rationals { f < rationals }
    requires ready { Ready line }
    requires nonzero { 0 < nat_abs (get_or line.coefficients f (pos 0)) }
    requires in_range { InRange model }
    ensures { fraction_meaning result ≡ bound_of (assignment model) f (constraint_in line) }
{
    let n = rest(line, f, model);
    Fraction::quotient(n, line.coefficients[f], u64::from(model.denominator))
}

// Whether a line bounds the variable: it is of its round, and nothing else in it holds.
fn counts(line: Line, current: RationalRound, model: Model) -> bool
    requires scheduled_rational { ScheduledRational current }
    requires ready { Ready line }
    ensures { result ≡ counts (assignment model) current (meaning line) }
{
    line.round(current.order) == current.number && !literal_holds(line, model)
}

// The bounds so far, with one line more that counts; none, where its bound is beyond.
fn with_line(earlier: Bounds, line: Line, current: RationalRound, model: Model) -> Option<Bounds>
    requires within { Within (bound_meaning earlier.lower) × Within (bound_meaning earlier.upper) }
    requires scheduled_rational { ScheduledRational current }
    requires ready { Ready line }
    requires in_range { InRange model }
    requires counted { counts (assignment model) current (meaning line) ≡ true }
    ensures { WithLine earlier result (assignment model) current (meaning line) }
{
    let f = current.rational;
    let at = bound_of(line, f, model);
    if at.beyond() {
        return None;
    }
    let next = Bound {
        at,
        strict: line.relation == 2,
    };
    if line.has_positive_rational(f) {
        return Some(Bounds {
            upper: Some(tighter(Side::Upper, next, earlier.upper)),
            ..earlier
        });
    }
    Some(Bounds {
        lower: Some(tighter(Side::Lower, next, earlier.lower)),
        ..earlier
    })
}

// From the last line to the first. Most are of another round, and leave the bounds where they are.
pub fn gathered(proof: &[u8], n: usize, current: RationalRound, model: Model) -> Option<Bounds>
    requires n_in_bounds { step_bytes * n ≤ length proof.now }
    requires ready_lines { ReadyLines proof.now n }
    requires scheduled_rational { ScheduledRational current }
    requires in_range { InRange model }
    ensures { GatheredIn result (assignment model) current (lines_in proof.now n) }
{
    let mut bounds = Bounds {
        lower: None,
        upper: None,
    };
    for j in (0..n).rev() {
        let line = line_at(proof, j);
        if counts(line, current, model) {
            bounds = with_line(bounds, line, current, model)?;
        }
    }
    Some(bounds)
}
