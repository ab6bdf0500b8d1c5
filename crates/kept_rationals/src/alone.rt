// "a negative multiple of this figure alone".
ghost use Rattle.std.specs.Prelude.{◌≡◌, ◌≤◌, length};
ghost use Rattle.rules.specs.Bytes.{from_unsigned};
ghost use Rattle.problem_scan.specs.Values.{values_at, behind, amount_at};
ghost use Rattle.kept_rationals.specs.Alone.{taken, alone_in};

use fields::u32_at;

// The one variable so far, or r for none; or an end, since there is a second one or a positive coefficient.
#[derive(Clone, Copy)]
pub enum Taken {
    Found(u8),
    Stop,
}

// With the coefficient of variable i, by its 32 bits: from 2^31 on it is negative.
fn with_one(r: u8, i: u8, found: u8, n: u64) -> Taken
    ensures { result ≡ taken r i found (from_unsigned n) }
{
    if n == 0 {
        return Taken::Found(found);
    }
    if found < r {
        return Taken::Stop;
    }
    if n < 2147483648 {
        return Taken::Stop;
    }
    Taken::Found(i)
}

// The variable that r coefficients are a negative multiple of alone; r if there is none.
pub fn alone(input: &[u8], from: usize, r: u8) -> u8
    requires { behind 4 r from ≤ length input.now }
    ensures { result ≡ alone_in r 0 r (values_at (amount_at input.now) 4 r from) }
{
    let mut at = from;
    let mut i: u8 = 0;
    let mut found = r;
    while i < r {
        let one = with_one(r, i, found, u32_at(input, at));
        let Taken::Found(v) = one else {
            return r;
        };
        found = v;
        at += 4;
        i += 1;
    }
    found
}
