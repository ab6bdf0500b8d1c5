// The content of a constraint, the greatest common divisor of its numbers, and division by it.
ghost use Rattle.std.specs.Prelude.{◌≡◌, ◌∷◌, ◌<◌, ◌^◌, pos};
ghost use Rattle.std.specs.Int.Signed.{quot_z};
ghost use Rattle.rules.specs.Arithmetic.{gcd_all};
ghost use Rattle.theory_vectors.specs.Constraint.{quotients};

use machine::gcd::gcd;
use machine::sign::size;
use rules_types::limits::Limits;

// From the bound on, up to the first divisor that is 1: it stays so.
pub fn content(row: [i64; Limits::RATIONALS], bound: i64) -> u64
    ensures { result ≡ gcd_all (bound ∷ row) }
{
    let mut g = size(bound);
    let mut i = 0;
    while i < Limits::RATIONALS {
        if g == 1 {
            return 1;
        }
        g = gcd(g, size(row[i]));
        i += 1;
    }
    g
}

// Towards 0. By 1 no division runs, and so for a row.
pub fn quotient(z: i64, g: u64) -> i64
    requires g_nonzero { 0 < g }
    requires g_bound { g < 2 ^ 63 }
    ensures { result ≡ quot_z z (pos g) }
{
    if g == 1 {
        return z;
    }
    z / g as i64
}

pub fn divide(row: [i64; Limits::RATIONALS], g: u64) -> [i64; Limits::RATIONALS]
    requires g_nonzero { 0 < g }
    requires g_bound { g < 2 ^ 63 }
    ensures { result ≡ quotients g row }
{
    if g == 1 {
        return row;
    }
    let mut out = [0 as i64; Limits::RATIONALS];
    let mut i = 0;
    while i < Limits::RATIONALS {
        let z = row[i];
        out[i] = quotient(z, g);
        i += 1;
    }
    out
}
