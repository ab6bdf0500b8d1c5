// Whether a line that is held already drops another: the one place that looks for it.
ghost use Rattle.std.specs.Prelude.{◌≡◌, ◌&&◌, ◌||◌};
ghost use Rattle.std.specs.Int.Signed.{lt_z};
ghost use Rattle.rules.specs.Lists.{same};
ghost use Rattle.rules.specs.Arithmetic.{equal};
ghost use Rattle.rules.specs.Elimination.{as_tight, drops, covered};
ghost use Rattle.lines.specs.Line.{meaning, Shaped, Ready};
ghost use Rattle.steps.specs.Places.{HasStep};
ghost use Rattle.steps.specs.Lines.{line_at};
ghost use Rattle.steps.specs.Held.{steps_in, Held};
ghost use Rattle.placing.specs.Tight.{constraint_at};

use lines::line::Line;
use masks::subset;
use rules_types::limits::Limits;
use steps::access::{bound_at, coefficient_word_at, negative_at, positive_at, relation_at};
use steps::encode::encode;
use steps::origin::{Origin, Step};

// Whether step i and these bytes of a step have the same coefficients, word by word.
fn same_coefficients(proof: &[u8], i: usize, bytes: &[u8]) -> bool
    requires has_step { HasStep proof.now i }
    requires has_step_2 { HasStep bytes.now 0 }
    ensures { result ≡ same equal (line_at proof.now i).coefficients (line_at bytes.now 0).coefficients }
{
    let mut f: usize = 0;
    while f < Limits::RATIONALS {
        if coefficient_word_at(proof, i, f) != coefficient_word_at(bytes, 0, f) {
            return false;
        }
        f += 1;
    }
    true
}

// "a bound that is smaller, or equal under a relation at least as strict"
fn bound_as_tight(earlier: i64, bound: i64, as_strict: bool) -> bool
    ensures { result ≡ lt_z earlier bound || equal earlier bound && as_strict }
{
    if earlier == bound {
        return as_strict;
    }
    earlier < bound
}

// Whether step i has no constraint, or "equal coefficients" and such a bound.
fn as_tight(proof: &[u8], i: usize, bytes: &[u8]) -> bool
    requires has_step { HasStep proof.now i }
    requires has_step_2 { HasStep bytes.now 0 }
    requires shaped { Shaped (line_at proof.now i) × Shaped (line_at bytes.now 0) }
    ensures { result ≡ as_tight (constraint_at proof.now i) (constraint_at bytes.now 0) }
{
    let earlier = relation_at(proof, i);
    let relation = relation_at(bytes, 0);
    if earlier == 0 {
        return true;
    }
    if relation == 0 {
        return false;
    }
    if !same_coefficients(proof, i, bytes) {
        return false;
    }
    bound_as_tight(bound_at(proof, i), bound_at(bytes, 0), relation <= earlier)
}

// Whether step i drops the line of these bytes of a step: it is as tight, and "has a subset of its literals in each sign". The
// coefficients, which tell most lines apart, are compared first.
fn drops(proof: &[u8], i: usize, bytes: &[u8]) -> bool
    requires has_step { HasStep proof.now i }
    requires has_step_2 { HasStep bytes.now 0 }
    requires shaped { Shaped (line_at proof.now i) × Shaped (line_at bytes.now 0) }
    ensures { result ≡ drops (meaning (line_at proof.now i)) (meaning (line_at bytes.now 0)) }
{
    if !as_tight(proof, i, bytes) {
        return false;
    }
    if !subset(positive_at(proof, i), positive_at(bytes, 0)) {
        return false;
    }
    subset(negative_at(proof, i), negative_at(bytes, 0))
}

// Whether one of the n lines drops this one, asked from the last to the first.
pub fn covered(proof: &[u8], n: usize, line: Line) -> bool
    requires held { Held proof.now n }
    requires ready { Ready line }
    ensures { result ≡ covered (meaning line) (steps_in proof.now n) }
{
    let bytes = encode(Step {
        origin: Origin::loaded(0, 0),
        line: line,
    });
    let mut i: usize = n;
    while 0 < i {
        i -= 1;
        if drops(proof, i, &bytes) {
            return true;
        }
    }
    false
}
