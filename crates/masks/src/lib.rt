// Sets of Boolean variables as masks: variable i is a member if bit i is 1. "Four bytes each" have a bit for every one.
#![tactic(auto)]

ghost use Rattle.std.specs.Prelude.{◌≡◌, false, ◌<◌, get_or};
ghost use Rattle.std.specs.Int.Count.{count_trailing_zeros};
ghost use Rattle.rules_types.specs.Limits.{all_booleans};
ghost use Rattle.rules.specs.Lines.{including, excluding, meet, subset};
ghost use Rattle.masks.specs.Mask.{bits};

use rules_types::limits::Limits;

// Every variable.
pub const ALL: u32 = u32::MAX;

pub fn member(mask: u32, i: usize) -> bool
    requires { i < all_booleans }
    ensures { result ≡ get_or (bits all_booleans mask) i false }
{
    (mask >> i) % 2 == 1
}

// The lowest member; one past the last variable without one.
pub fn lowest(mask: u32) -> usize
    ensures { result ≡ count_trailing_zeros all_booleans mask }
{
    mask.trailing_zeros() as usize
}

// With one member more; no mask has a variable past the last.
pub fn with(mask: u32, i: usize) -> u32
    ensures { bits all_booleans result ≡ including i (bits all_booleans mask) }
{
    if Limits::ALL_BOOLEANS <= i {
        mask
    } else {
        mask | (1 << i)
    }
}

// Without one member.
pub fn without(mask: u32, i: usize) -> u32
    requires { i < all_booleans }
    ensures { bits all_booleans result ≡ excluding i (bits all_booleans mask) }
{
    mask & !(1 << i)
}

// Whether some variable is a member of both.
pub fn meets(a: u32, b: u32) -> bool
    ensures { result ≡ meet (bits all_booleans a) (bits all_booleans b) }
{
    (a & b) != 0
}

// Whether every member of the first is one of the second.
pub fn subset(a: u32, b: u32) -> bool
    ensures { result ≡ subset (bits all_booleans a) (bits all_booleans b) }
{
    (a | b) == b
}
