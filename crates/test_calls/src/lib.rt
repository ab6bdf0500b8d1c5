// Calls for the test programs alone: parts of the solver that its own calls do not show one by one.
#![tactic(auto)]

ghost use Rattle.std.specs.Prelude.{◌≡◌};
ghost use Rattle.rules.specs.Calls.{read};
ghost use Rattle.test_calls.specs.Told.{told};

use problem_read::read::read;
use problem_scan::cursor::Scan;

// A fault's number and place; or 0, 0 and the sizes of a problem that is read without fault.
#[repr(C)]
#[derive(Clone, Copy)]
pub struct ReadTold {
    pub number: u64,
    pub place: usize,
    pub booleans: u64,
    pub rationals: u64,
    pub clauses: u64,
}

#[unsafe(no_mangle)]
pub extern "C" fn test_read(input: &[u8]) -> ReadTold
    ensures { result ≡ told (read input.now) }
{
    let s = read(input);
    match s {
        Scan::Sound(sizes) => ReadTold {
            number: 0,
            place: 0,
            booleans: sizes.booleans as u64,
            rationals: sizes.rationals as u64,
            clauses: sizes.clauses,
        },
        Scan::Fault(f, place) => ReadTold {
            number: f.number() as u64,
            place: place,
            booleans: 0,
            rationals: 0,
            clauses: 0,
        },
    }
}
