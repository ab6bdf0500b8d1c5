// Greatest common divisors by Stein's binary algorithm: shifts and differences in place of remainders, which cost most.
ghost use Rattle.std.specs.Prelude.{◌≡◌, ◌%◌, ◌<◌, ◌-◌, min, max};
ghost use Rattle.rules.specs.Arithmetic.{gcd};
ghost use Rattle.machine.specs.Odd.{twos, odd_part};

// How many factors 2 it has, and the number without them.
fn twos(n: u64) -> u64
    ensures { result ≡ twos n }
{
    u64::trailing_zeros(n) as u64
}

fn odd_part(n: u64) -> u64
    requires { 0 < n }
    ensures { result ≡ odd_part n }
{
    n >> twos(n)
}

fn lesser(x: u64, y: u64) -> u64
    ensures { result ≡ min x y }
{
    if x < y { x } else { y }
}

fn distance(x: u64, y: u64) -> u64
    ensures { result ≡ max x y - min x y }
{
    if x < y { y - x } else { x - y }
}

// Of an odd number and any other: the other's factors 2 count for nothing, and the difference of two odd numbers is even.
fn gcd_odd(a: u64, b: u64) -> u64
    requires { a % 2 ≡ 1 }
    ensures { result ≡ gcd a b }
{
    let mut x = a;
    let mut y = b;
    while y != 0 {
        let z = odd_part(y);
        y = distance(x, z);
        x = lesser(x, z);
    }
    x
}

pub fn gcd(a: u64, b: u64) -> u64
    ensures { result ≡ gcd a b }
{
    if a == 0 {
        return b;
    }
    if b == 0 {
        return a;
    }
    let odd = gcd_odd(odd_part(a), b);
    odd << lesser(twos(a), twos(b))
}
