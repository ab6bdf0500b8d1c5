// Combinations of two rows, c × us + a × ls: 64 bits hold a sum of two products of amounts.
ghost use Rattle.std.specs.Prelude.{◌≡◌, ◌+ℤ◌, ◌*ℤ◌};
ghost use Rattle.rules.specs.Arithmetic.{combine};
ghost use Rattle.theory_vectors.specs.Amounts.{Small, Amounts};

use rules_types::limits::Limits;

pub fn combine(c: i64, x: i64, a: i64, y: i64) -> i64
    requires small { Small c }
    requires small_2 { Small x }
    requires small_3 { Small a }
    requires small_4 { Small y }
    ensures { result ≡ c *ℤ x +ℤ a *ℤ y }
{
    c * x + a * y
}

pub fn combine_rows(
    c: i64,
    us: [i64; Limits::RATIONALS],
    a: i64,
    ls: [i64; Limits::RATIONALS],
) -> [i64; Limits::RATIONALS]
    requires small { Small c }
    requires small_2 { Small a }
    requires amounts { Amounts us }
    requires amounts_2 { Amounts ls }
    ensures { result ≡ combine c us a ls }
{
    let mut out = [0 as i64; Limits::RATIONALS];
    let mut i = 0;
    while i < Limits::RATIONALS {
        let x = us[i];
        let y = ls[i];
        out[i] = combine(c, x, a, y);
        i += 1;
    }
    out
}
