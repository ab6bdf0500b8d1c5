// Where the halves of a variable stand: behind those of the variables before it.
ghost use Rattle.std.specs.Prelude.{◌≡◌, cond, ◌≤◌, ◌<◌};
ghost use Rattle.rules_types.specs.Limits.{rationals};
ghost use Rattle.rules.specs.Convert.{place_of};
ghost use Rattle.kept_rationals.specs.Kept.{inside};

use masks::member;

// How many variables come of one: itself, or its halves.
pub fn halves(mask: u32, f: u8) -> u8
    requires { f < rationals }
    ensures { result ≡ cond (inside mask f) 1 2 }
{
    if member(mask, f as usize) {
        return 1;
    }
    2
}

// Of the first r.
pub fn place_of(mask: u32, r: u8) -> u8
    requires { r ≤ rationals }
    ensures { result ≡ place_of (inside mask) r }
{
    let mut n: u8 = 0;
    let mut f: u8 = 0;
    while f < r {
        n += halves(mask, f);
        f += 1;
    }
    n
}
