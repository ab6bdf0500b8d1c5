// "b bytes of 0 or 1" as a set; 02, (iv): 2 of an open variable, one that is not in the mask `occurring`.
ghost use Rattle.std.specs.Prelude.{◌≡◌, ◌+◌, ◌≤◌, length, MatchResult};
ghost use Rattle.rules_types.specs.Limits.{all_booleans, booleans};
ghost use Rattle.rules.specs.Model.{is_boolean_byte};
ghost use Rattle.masks.specs.Mask.{bits, outside};
ghost use Rattle.models.specs.Booleans.{joined, ReadBooleans, RefusedBooleans};

use masks::{member, with};

// "The check allows 2 exactly there"
#[tactic(auto, unfolding(rules::specs::Model::is_boolean_byte))]
fn is_boolean_byte(opens: bool, byte: u8) -> bool
    ensures { result ≡ is_boolean_byte opens byte }
{
    if opens {
        return byte == 2;
    }
    byte <= 1
}

// With variable i, where its byte is 1.
#[tactic(auto, unfolding(crate::specs::Booleans::joined))]
fn joined(mask: u32, i: usize, byte: u8) -> u32
    ensures { bits all_booleans result ≡ joined i byte (bits all_booleans mask) }
{
    if byte == 1 {
        return with(mask, i);
    }
    mask
}

// So many bytes as a mask, with bit i where byte i is 1; or the place of the first that is refused.
pub fn booleans(s: &[u8], from: usize, count: u8, occurring: u32) -> Result<u32, usize>
    requires count_in_bounds { from + count ≤ length s.now }
    requires count_le_booleans { count ≤ booleans }
    ensures { MatchResult result (ReadBooleans s.now from count (outside occurring))
        (RefusedBooleans s.now from count (outside occurring)) }
{
    let mut mask = 0;
    for i in 0..count as usize {
        let at = from + i;
        let byte = s[at];
        if !is_boolean_byte(!member(occurring, i), byte) {
            return Err(at);
        }
        mask = joined(mask, i, byte);
    }
    Ok(mask)
}
