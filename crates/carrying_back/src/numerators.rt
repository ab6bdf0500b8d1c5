// "carried back by subtraction": a variable's numerator from those of its halves.
ghost use Rattle.std.specs.Prelude.{◌≡◌, cond, ◌+◌, ◌≤◌, ◌-ℤ◌, MatchResult};
ghost use Rattle.rules_types.specs.Limits.{rationals};
ghost use Rattle.rules.specs.Convert.{place_of};
ghost use Rattle.theory_vectors.specs.Amounts.{Amounts};
ghost use Rattle.models.specs.Model.{value};
ghost use Rattle.kept_rationals.specs.Kept.{inside};
ghost use Rattle.carrying_back.specs.Numerators.{CarriedRow, Beyond};

use kept_rationals::places::halves;
use machine::sign::in_range;
use masks::member;
use rules_types::limits::Limits;

// Of the variable whose halves stand at a place.
#[tactic(auto, unfolding(models::specs::Model::value))]
fn numerator(numerators: [i64; Limits::RATIONALS], at: usize, kept: bool) -> i64
    requires kept_bound { at + cond kept 1 2 ≤ rationals }
    requires amounts { Amounts numerators }
    ensures { result ≡ cond kept (value numerators at) (value numerators at -ℤ value numerators (at + 1)) }
{
    let first = numerators[at];
    if kept {
        return first;
    }
    let second = numerators[at + 1];
    first - second
}

// Of r variables, of which those in the mask are kept: the numerators, with zeros behind them; or the first variable whose numerator
// leaves the range.
pub fn carried(
    numerators: [i64; Limits::RATIONALS],
    mask: u32,
    r: u8,
) -> Result<[i64; Limits::RATIONALS], usize>
    requires r_le_rationals { r ≤ rationals }
    requires r_bound { place_of (inside mask) r ≤ rationals }
    requires amounts { Amounts numerators }
    ensures { MatchResult result (CarriedRow (inside mask) (value numerators) r) (Beyond (inside mask) (value numerators) r) }
{
    let mut out = [0; Limits::RATIONALS];
    let mut at = 0;
    for f in 0..r {
        let i = f as usize;
        let z = numerator(numerators, at, member(mask, i));
        if !in_range(z) {
            return Err(i);
        }
        out[i] = z;
        at += halves(mask, f) as usize;
    }
    Ok(out)
}
