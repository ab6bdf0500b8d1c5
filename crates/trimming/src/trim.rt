// The call: 1, then as the check answers, then the short proof.
ghost use Rattle.std.specs.Prelude.{◌≡◌, ◌≤◌, length};
ghost use Rattle.rules_types.specs.Limits.{standard, proof_bytes};
ghost use Rattle.rules_types.specs.Terms.{on};
ghost use Rattle.rules.specs.Trim.{step_count, trimmed, trim};
ghost use Rattle.theory_trimming.specs.Ordered.{Trimmable};
ghost use Rattle.trimming.specs.Trimmed.{trimmed_into};

use crate::kept::put_kept;
use crate::marks::WORDS;
use crate::needed::mark_needed;
use crate::numbers::count_words;
use proof_check::check::check_proof;
use rules_types::answers::{Checked, Refusal, Trimmed};
use rules_types::limits::Limits;
use rules_types::terms::{Edition, Terms};
use steps::store::zero;

// Of a proof that the check accepts: its steps.
fn put_trimmed(target: &mut [u8], proof: &[u8]) -> usize
    requires trimmable { Trimmable standard proof.now }
    requires standard_in_bounds { proof_bytes standard ≤ length target.old }
    ensures value { result ≡ step_count (trimmed proof.now) }
    ensures target_after { target.new ≡ trimmed_into proof.now target.old }
{
    let mut marks = [0u32; WORDS];
    let mut before = [0u16; WORDS];
    mark_needed(proof, &mut marks);
    count_words(&marks, &mut before);
    let n = put_kept(target, proof, &marks, &before);
    let all = Limits::STEPS as usize;
    zero(target, n, all);
    n
}

pub fn trim(input: &[u8], proof: &[u8], target: &mut [u8], edition: Edition) -> Trimmed
    ensures value { result ≡ (trim (on standard edition) input.now proof.now target.old).trimmed }
    ensures target_after { target.new
        ≡ (trim (on standard edition) input.now proof.now target.old).target }
{
    let limits = Limits::standard();
    if target.len() < limits.proof_bytes() {
        return Trimmed::Refused(Refusal::ShortProof, 0);
    }
    let terms = Terms {
        limits: limits,
        edition: edition,
    };
    let checked = check_proof(input, proof, terms);
    match checked {
        Checked::Accepted => Trimmed::Steps(put_trimmed(target, proof)),
        Checked::Fails(i) => Trimmed::Fails(i),
        Checked::Refused(f, place) => Trimmed::Refused(f, place),
    }
}
