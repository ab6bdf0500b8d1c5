// A model to check: "b; b bytes of 0 or 1; r; four bytes denominator; r numerators of four bytes".
ghost use Rattle.std.specs.Prelude.{◌≡◌, ◌≤◌, length, MatchResult};
ghost use Rattle.rules_types.specs.Limits.{booleans, model_bytes, rationals};
ghost use Rattle.masks.specs.Mask.{outside};
ghost use Rattle.models.specs.Read.{is_denominator, ReadModel, RefusedModel};

use crate::booleans::booleans;
use crate::model::Model;
use crate::numerators::numerators;
use fields::u32_at;
use rules_types::layout::{
    MODEL_BOOLEANS, MODEL_FLAGS, model_denominator, model_numerators, model_rationals,
};
use rules_types::limits::Limits;

// "denominator outside 1 to 1,000,000,000"
#[tactic(auto, unfolding(crate::specs::Read::is_denominator))]
fn is_denominator(n: u64) -> bool
    ensures { result ≡ is_denominator n }
{
    (1..=Limits::AMOUNT).contains(&n)
}

// Of a problem with b Boolean and r rational variables, of which those not in `occurring` are open; or the place of the first field that
// is refused.
pub fn read_model(s: &[u8], b: u8, r: u8, occurring: u32) -> Result<Model, usize>
    requires model_bytes_in_bounds { model_bytes ≤ length s.now }
    requires b_le_booleans { b ≤ booleans }
    requires r_le_rationals { r ≤ rationals }
    ensures { MatchResult result (ReadModel s.now b r (outside occurring)) (RefusedModel s.now b r (outside occurring)) }
{
    if s[MODEL_BOOLEANS] != b {
        return Err(MODEL_BOOLEANS);
    }
    let booleans = booleans(s, MODEL_FLAGS, b, occurring)?;
    let count_at = model_rationals(b);
    if s[count_at] != r {
        return Err(count_at);
    }
    let denominator_at = model_denominator(b);
    let denominator = u32_at(s, denominator_at);
    if !is_denominator(denominator) {
        return Err(denominator_at);
    }
    let numerators = numerators(s, model_numerators(b), r)?;
    Ok(Model {
        booleans,
        numerators,
        denominator: denominator as u32,
    })
}
