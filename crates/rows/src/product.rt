// Products of amounts: 64 bits hold a sum of eight of them, and a product of an amount and 32 bits.
ghost use Rattle.std.specs.Prelude.{◌≡◌, ◌≤◌, pos, nat_abs, ◌+ℤ◌, ◌*ℤ◌};
ghost use Rattle.theory_vectors.specs.Amounts.{Small};

// One product more, behind at most seven.
pub fn plus_product(total: i64, z: i64, x: i64) -> i64
    requires total_bound { nat_abs total ≤ 7000000000000000000 }
    requires small { Small z }
    requires small_2 { Small x }
    ensures { result ≡ total +ℤ z *ℤ x }
{
    total + z * x
}

pub fn scaled(bound: i64, denominator: u32) -> i64
    requires { Small bound }
    ensures { result ≡ bound *ℤ pos denominator }
{
    bound * (denominator as i64)
}
