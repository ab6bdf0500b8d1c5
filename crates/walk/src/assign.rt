// One variable more in an assignment, all rational variables over their least common denominator.
ghost use Rattle.std.specs.Prelude.{◌≡◌, ◌≤◌, ◌<◌, pos, nat_abs, ◌*ℤ◌};
ghost use Rattle.rules_types.specs.Limits.{all_booleans, amount, rationals};
ghost use Rattle.rules.specs.Lists.{put};
ghost use Rattle.rules.specs.Arithmetic.{lcm};
ghost use Rattle.rules.specs.Values.{with_boolean, with_rational};
ghost use Rattle.fractions.specs.Meaning.{meaning};
ghost use Rattle.fractions.specs.Range.{Small};
ghost use Rattle.theory_vectors.specs.Amounts.{Amounts};
ghost use Rattle.models.specs.Model.{value, assignment};
ghost use Rattle.values.specs.Range.{InRange};
ghost use Rattle.walk.specs.Reached.{SameOrTooLarge};

use fractions::fraction::Fraction;
use lines::row::overflowing_row;
use machine::gcd::gcd;
use masks::{with, without};
use models::model::Model;
use rows::combine::combine_rows;
use rules_types::limits::Limits;

pub fn with_boolean(model: Model, i: usize, yes: bool) -> Model
    requires i_lt_all_booleans { i < all_booleans }
    requires in_range { InRange model }
    ensures { (assignment result ≡ with_boolean i yes (assignment model)) × InRange result }
{
    let booleans = if yes {
        with(model.booleans, i)
    } else {
        without(model.booleans, i)
    };
    Model { booleans, ..model }
}

fn lcm(a: u64, b: u64) -> u64
    requires a_nonzero { 0 < a }
    requires a_le_amount { a ≤ amount }
    requires b_le_amount { b ≤ amount }
    ensures { result ≡ lcm a b }
{
    a / gcd(a, b) * b
}

// Every numerator times k, but that of f is a × m.
fn over(
    numerators: [i64; Limits::RATIONALS],
    k: u64,
    f: usize,
    a: i64,
    m: u64,
) -> [i64; Limits::RATIONALS]
    requires amounts { Amounts numerators }
    requires k_le_amount { k ≤ amount }
    requires f_lt_rationals { f < rationals }
    requires a_bound { nat_abs a ≤ amount }
    requires m_le_amount { m ≤ amount }
    ensures { value result ≡ put f (a *ℤ pos m) (λ j. value numerators j *ℤ pos k) }
{
    let mut others = numerators;
    others[f] = 0;
    let mut own = [0; Limits::RATIONALS];
    own[f] = m as i64;
    combine_rows(k as i64, others, a, own)
}

// None, where it can no longer be written: amounts over a denominator that is an amount.
pub fn with_rational(model: Model, f: usize, x: Fraction) -> Option<Model>
    requires f_lt_rationals { f < rationals }
    requires small { Small (meaning x) }
    requires in_range { InRange model }
    ensures { SameOrTooLarge result (with_rational f (meaning x) (assignment model)) }
{
    let d = u64::from(model.denominator);
    let e = x.denominator;
    let common = lcm(d, e);
    if Limits::AMOUNT < common {
        return None;
    }
    let numerators = over(model.numerators, common / d, f, x.numerator, common / e);
    if overflowing_row(numerators) {
        return None;
    }
    Some(Model {
        numerators,
        denominator: common as u32,
        ..model
    })
}
