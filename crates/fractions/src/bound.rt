// The tightest of the bounds gathered on one side of a rational variable, and the value rule between the two sides.
ghost use Rattle.std.specs.Prelude.{◌≡◌, Some};
ghost use Rattle.rules.specs.Values.{tighter, value};
ghost use Rattle.fractions.specs.Meaning.{meaning, bound_meaning, precedes};
ghost use Rattle.fractions.specs.Range.{Small, Within};

use crate::fraction::Fraction;

// A bound of a rational variable. "There may be no bound on either side": there it is None.
#[derive(Clone, Copy)]
pub struct Bound {
    pub at: Fraction,
    pub strict: bool,
}

#[derive(Clone, Copy)]
pub enum Side {
    Lower,
    Upper,
}

// Whether x is the tighter bound: the lesser of two uppers, the greater of two lowers.
fn precedes(side: Side, x: Fraction, y: Fraction) -> bool
    requires { Small (meaning x) × Small (meaning y) }
    ensures { result ≡ precedes side (meaning x) (meaning y) }
{
    match side {
        Side::Lower => y.less(x),
        Side::Upper => x.less(y),
    }
}

// The tightest bound so far on a side, with one gathered bound more: "strict if any at that value is".
#[tactic(auto, unfolding(rules::specs::Values::tighter))]
pub fn tighter(side: Side, next: Bound, earlier: Option<Bound>) -> Bound
    requires { Within (bound_meaning earlier) × Small (meaning next.at) }
    ensures { bound_meaning (Some result) ≡ tighter (precedes side) (meaning next.at) next.strict (bound_meaning earlier) }
{
    let Some(other) = earlier else {
        return next;
    };
    if precedes(side, next.at, other.at) {
        return next;
    }
    if precedes(side, other.at, next.at) {
        return other;
    }
    Bound {
        at: other.at,
        strict: next.strict | other.strict,
    }
}

// "0 with neither; L if L exists and is not strict; else U if U exists and is not strict; else the midpoint with both; else
// L + 1 or U - 1."
#[tactic(auto, unfolding(rules::specs::Values::value))]
pub fn value(lower: Option<Bound>, upper: Option<Bound>) -> Fraction
    requires { Within (bound_meaning lower) × Within (bound_meaning upper) }
    ensures { meaning result ≡ value (bound_meaning lower) (bound_meaning upper) }
{
    match (lower, upper) {
        (None, None) => Fraction {
            numerator: 0,
            denominator: 1,
        },
        (Some(Bound { at, strict }), _) if !strict => at,
        (_, Some(Bound { at, strict })) if !strict => at,
        (Some(l), Some(u)) => l.at.midpoint(u.at),
        (Some(l), None) => l.at.plus_one(),
        (None, Some(u)) => u.at.minus_one(),
    }
}
