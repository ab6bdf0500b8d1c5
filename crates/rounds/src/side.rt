// The lines of a round that have its variable on one side: positive (an upper bound) or negative.
ghost use Rattle.std.specs.Prelude.{◌≡◌, ◌+◌, ◌≤◌, ◌<◌};
ghost use Rattle.rules.specs.Lines.{rational, boolean};
ghost use Rattle.lines.specs.Order.{variable_of, Ranged, Scheduled};
ghost use Rattle.rules_types.specs.Limits.{rationals, all_booleans};
ghost use Rattle.lines.specs.Line.{meaning, Shaped};
ghost use Rattle.steps.specs.Places.{HasStep};
ghost use Rattle.steps.specs.Lines.{line_at};
ghost use Rattle.steps.specs.Held.{Held};
ghost use Rattle.rounds.specs.Sides.{on_side, chosen, Next};

use lines::order::{Variable, VariableRound};
use machine::sign::{is_negative, is_positive};
use masks::member;
use steps::access::{coefficient_at, line_at, negative_at, positive_at};

fn rational_side(proof: &[u8], i: usize, f: usize, upper: bool) -> bool
    requires has_step { HasStep proof.now i }
    requires f_lt_rationals { f < rationals }
    requires shaped { Shaped (line_at proof.now i) }
    ensures { result ≡ on_side upper (rational f) (meaning (line_at proof.now i)) }
{
    let z = coefficient_at(proof, i, f);
    if upper {
        return is_positive(z);
    }
    is_negative(z)
}

fn boolean_side(proof: &[u8], i: usize, b: usize, upper: bool) -> bool
    requires has_step { HasStep proof.now i }
    requires b_lt_all_booleans { b < all_booleans }
    ensures { result ≡ on_side upper (boolean b) (meaning (line_at proof.now i)) }
{
    if upper {
        return member(positive_at(proof, i), b);
    }
    member(negative_at(proof, i), b)
}

fn has_side(proof: &[u8], i: usize, v: Variable, upper: bool) -> bool
    requires has_step { HasStep proof.now i }
    requires ranged { Ranged v }
    requires shaped { Shaped (line_at proof.now i) }
    ensures { result ≡ on_side upper (variable_of v) (meaning (line_at proof.now i)) }
{
    match v {
        Variable::Rational(f) => rational_side(proof, i, f, upper),
        Variable::Boolean(b) => boolean_side(proof, i, b, upper),
    }
}

// Whether line i is one of the round and has its variable on this side. The bytes of the variable are read first.
fn stands(proof: &[u8], i: usize, current: VariableRound, upper: bool) -> bool
    requires has_step { HasStep proof.now i }
    requires scheduled { Scheduled current }
    requires shaped { Shaped (line_at proof.now i) }
    ensures { result ≡ chosen upper current (meaning (line_at proof.now i)) }
{
    let v = current.variable;
    if !has_side(proof, i, v, upper) {
        return false;
    }
    let line = line_at(proof, i);
    let order = current.order;
    line.round(order) == current.number
}

// The first such line from a number on, m without one.
pub fn next(proof: &[u8], from: usize, m: usize, current: VariableRound, upper: bool) -> usize
    requires held { Held proof.now m }
    requires from_le_m { from ≤ m }
    requires scheduled { Scheduled current }
    ensures { Next proof.now m (chosen upper current) from result }
{
    let mut i = from;
    while i < m {
        if stands(proof, i, current, upper) {
            return i;
        }
        i += 1;
    }
    m
}
