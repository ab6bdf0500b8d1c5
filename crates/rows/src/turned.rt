// A row with all signs turned.
ghost use Rattle.std.specs.Prelude.{◌≡◌, true, map};
ghost use Rattle.rules.specs.Readings.{signed};
ghost use Rattle.theory_vectors.specs.Amounts.{Amounts};

use machine::sign::signed;
use rules_types::limits::Limits;

pub fn turned(row: [i64; Limits::RATIONALS]) -> [i64; Limits::RATIONALS]
    requires { Amounts row }
    ensures { result ≡ map (signed true) row }
{
    let mut out = [0 as i64; Limits::RATIONALS];
    let mut i = 0;
    while i < Limits::RATIONALS {
        let z = row[i];
        out[i] = signed(true, z);
        i += 1;
    }
    out
}
