// "r numerators of four bytes" as a row.
ghost use Rattle.std.specs.Prelude.{◌+◌, ◌*◌, ◌≤◌, length, MatchResult};
ghost use Rattle.rules_types.specs.Limits.{rationals};
ghost use Rattle.models.specs.Numerators.{ReadNumerators, RefusedNumerators};

use fields::amount_at;
use machine::sign::in_range;
use rules_types::limits::Limits;

// So many numerators, with zeros behind them; or the place of the first that is refused.
pub fn numerators(s: &[u8], from: usize, count: u8) -> Result<[i64; Limits::RATIONALS], usize>
    requires count_in_bounds { from + count * 4 ≤ length s.now }
    requires count_le_rationals { count ≤ rationals }
    ensures { MatchResult result (ReadNumerators s.now from count) (RefusedNumerators s.now from count) }
{
    let mut out = [0; Limits::RATIONALS];
    for i in 0..count as usize {
        let at = from + i * 4;
        let z = amount_at(s, at);
        if !in_range(z) {
            return Err(at);
        }
        out[i] = z;
    }
    Ok(out)
}
