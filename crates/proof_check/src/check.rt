// The check of a proof: faults of the problem, then 16, then the steps.
ghost use Rattle.std.specs.Prelude.{◌≡◌};
ghost use Rattle.rules.specs.Checker.{check_proof};
ghost use Rattle.rules.specs.Calls.{whole_steps, proof_checked};
ghost use Rattle.problem_read.specs.Parsed.{posed_at};
ghost use Rattle.problem_read.specs.Readable.{Readable};

use crate::follow::check_steps;
use crate::index::index;
use problem_read::read::read;
use problem_scan::cursor::{Scan, Sizes};
use rules_types::answers::{Checked, Refusal};
use rules_types::limits::Limits;
use rules_types::terms::{Edition, Terms};

// 16: "length not 64 to 65,536 by 64s".
fn whole_steps(limits: Limits, n: usize) -> bool
    ensures { result ≡ whole_steps limits n }
{
    if n < Limits::STEP_BYTES {
        return false;
    }
    if limits.proof_bytes() < n {
        return false;
    }
    n % Limits::STEP_BYTES == 0
}

// Of a problem that is read without fault, in its edition.
fn check_readable(input: &[u8], sizes: Sizes, edition: Edition, proof: &[u8]) -> Checked
    requires { Readable input.now sizes }
    ensures { result ≡ check_proof (posed_at edition input.now sizes) proof.now }
{
    let mut places = [0u16; Limits::CLAUSES];
    let mut variables = [0u8; Limits::CLAUSES];
    index(input, sizes, &mut places, &mut variables);
    check_steps(input, sizes, edition, &places, &variables, proof)
}

pub fn check_proof(input: &[u8], proof: &[u8], terms: Terms) -> Checked
    ensures { result ≡ proof_checked terms input.now proof.now }
{
    let s = read(input);
    match s {
        Scan::Fault(f, place) => Checked::Refused(f, place),
        Scan::Sound(sizes) => {
            if !whole_steps(terms.limits, proof.len()) {
                return Checked::Refused(Refusal::ProofLength, proof.len());
            }
            let edition = terms.edition;
            check_readable(input, sizes, edition, proof)
        }
    }
}
