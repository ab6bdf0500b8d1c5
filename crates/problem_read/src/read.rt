// The one call that reads: a scan to fault 12, then 13.
ghost use Rattle.std.specs.Prelude.{◌≡◌};
ghost use Rattle.rules.specs.Calls.{read};
ghost use Rattle.problem_read.specs.ScanOf.{scan_of};

use crate::over::{Excess, over};
use problem_scan::cursor::Scan;
use problem_scan::scan::scan;
use rules_types::answers::Refusal;
use rules_types::layout::FIRST_CLAUSE;

pub fn read(input: &[u8]) -> Scan
    ensures { result ≡ scan_of (read input.now) }
{
    let s = scan(input);
    let Scan::Sound(sizes) = s else {
        return s;
    };
    let e = over(input, FIRST_CLAUSE, sizes.rationals, sizes.clauses);
    match e {
        Excess::Within => Scan::Sound(sizes),
        Excess::At(place) => Scan::Fault(Refusal::Splits, place),
    }
}
