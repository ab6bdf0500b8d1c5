// The size and the sign of an integer.
ghost use Rattle.std.specs.Prelude.{◌≡◌, ◌^◌, ◌<◌, pos, nat_abs};
ghost use Rattle.rules.specs.Arithmetic.{is_positive, is_negative, is_zero, related};
ghost use Rattle.rules.specs.Problem.{in_range};
ghost use Rattle.rules.specs.Readings.{signed};

use rules_types::limits::Limits;

// The least number has no negation of its width, its successor has.
pub fn size(z: i64) -> u64
    ensures { result ≡ nat_abs z }
{
    if z < 0 {
        let next = z + 1;
        let below = 0 - next;
        return below as u64 + 1;
    }
    z as u64
}

pub fn is_positive(z: i64) -> bool
    ensures { result ≡ is_positive z }
{
    0 < z
}

pub fn is_negative(z: i64) -> bool
    ensures { result ≡ is_negative z }
{
    z < 0
}

pub fn is_zero(z: i64) -> bool
    ensures { result ≡ is_zero z }
{
    z == 0
}

// Whether 0 is related to a bound: 0 < bound where strict, 0 ≤ bound where not.
pub fn zero_related(strict: bool, bound: i64) -> bool
    ensures { result ≡ related strict (pos 0) bound }
{
    if strict {
        return is_positive(bound);
    }
    !is_negative(bound)
}

// With its sign turned, or as it is.
pub fn signed(turned: bool, z: i64) -> i64
    requires { nat_abs z < 2 ^ 63 }
    ensures { result ≡ signed turned z }
{
    if turned {
        return 0 - z;
    }
    z
}

// Whether it is an amount.
pub fn in_range(z: i64) -> bool
    ensures { result ≡ in_range z }
{
    let limit = Limits::AMOUNT as i64;
    0 - limit <= z && z <= limit
}
