// A problem read to its first fault 3 to 12 or 18, each byte once.
ghost use Rattle.std.specs.Prelude.{◌≡◌, ◌≤◌, length, drop};
ghost use Rattle.rules_types.specs.Layout.{first_clause};
ghost use Rattle.rules.specs.Problem.{problem};
ghost use Rattle.problem_scan.specs.Scans.{outline, body, scanned};

use crate::clauses::clauses;
use crate::cursor::{Cursor, Scan, Sizes};
use fields::u16_at;
use rules_types::answers::Refusal;
use rules_types::layout::{FIRST_CLAUSE, PROBLEM_BOOLEANS, PROBLEM_CLAUSES, PROBLEM_RATIONALS};
use rules_types::limits::Limits;

// The clauses, and 12: "bytes follow the last clause; the first".
fn body(input: &[u8], sizes: Sizes) -> Scan
    requires { first_clause ≤ length input.now }
    ensures { result ≡ outline (body sizes (drop first_clause input.now) first_clause) }
{
    let read = clauses(input, FIRST_CLAUSE, sizes);
    match read {
        Cursor::Fault(f, place) => Scan::Fault(f, place),
        Cursor::Next(at) => {
            if at < input.len() {
                return Scan::Fault(Refusal::Trailing, at);
            }
            Scan::Sound(sizes)
        }
    }
}

// 4 to 12, and 18.
fn problem(input: &[u8]) -> Scan
    ensures { result ≡ outline (problem input.now 0) }
{
    if input.len() <= PROBLEM_BOOLEANS {
        return Scan::Fault(Refusal::Truncated, input.len());
    }
    let b = input[PROBLEM_BOOLEANS];
    if Limits::BOOLEANS < b as usize {
        return Scan::Fault(Refusal::Booleans, PROBLEM_BOOLEANS);
    }
    if input.len() <= PROBLEM_RATIONALS {
        return Scan::Fault(Refusal::Truncated, input.len());
    }
    let r = input[PROBLEM_RATIONALS];
    if Limits::RATIONALS < r as usize {
        return Scan::Fault(Refusal::Rationals, PROBLEM_RATIONALS);
    }
    if input.len() < FIRST_CLAUSE {
        return Scan::Fault(Refusal::Truncated, input.len());
    }
    let n = u16_at(input, PROBLEM_CLAUSES);
    if (Limits::CLAUSES as u64) < n {
        return Scan::Fault(Refusal::Clauses, PROBLEM_CLAUSES);
    }
    let sizes = Sizes {
        booleans: b,
        rationals: r,
        clauses: n,
    };
    body(input, sizes)
}

// 3, before them: "question over 32,768 bytes; 32,768".
pub fn scan(input: &[u8]) -> Scan
    ensures { result ≡ scanned input.now }
{
    if Limits::PROBLEM_BYTES < input.len() {
        return Scan::Fault(Refusal::LongProblem, Limits::PROBLEM_BYTES);
    }
    problem(input)
}
