// 02, (v): how many clauses an edition adds behind those of a problem, "clauses n to n + r - 1".
ghost use Rattle.std.specs.Prelude.{◌≡◌, length};
ghost use Rattle.rules.specs.Problem.{added};

use rules_types::terms::Edition;

pub fn added(edition: Edition, r: u8) -> u8
    ensures { result ≡ length (added edition r) }
{
    match edition {
        Edition::First => 0,
        Edition::Second => r,
    }
}
