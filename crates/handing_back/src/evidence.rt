// Handing back: the part of the lent proof or model that a verdict gives its caller.
ghost use Rattle.std.specs.Prelude.{◌≡◌};
ghost use Rattle.rules.specs.Calls.{evidence};
ghost use Rattle.handing_back.specs.Evidence.{refused, handed_back};

use rules_types::answers::{Evidence, Verdict};
use rules_types::limits::Limits;

// Whether a buffer is too short or the steps are too many: then nothing is handed back.
fn refused(limits: Limits, steps: usize, proof: &[u8], model: &[u8]) -> bool
    ensures { result ≡ refused limits steps proof.now model.now }
{
    if proof.len() < limits.proof_bytes() {
        return true;
    }
    if model.len() < Limits::MODEL_BYTES {
        return true;
    }
    (limits.steps as usize) < steps
}

// Which part, from a verdict's number and steps as the caller names them.
pub fn evidence(limits: Limits, number: u64, steps: usize, proof: &[u8], model: &[u8]) -> Evidence
    ensures { result ≡ evidence limits number steps proof.now model.now }
{
    if refused(limits, steps, proof, model) {
        return Evidence::OfProof(0);
    }
    if number == Verdict::SATISFIABLE {
        return Evidence::OfModel(Limits::MODEL_BYTES);
    }
    if number == Verdict::UNSATISFIABLE {
        return Evidence::OfProof(Limits::STEP_BYTES * steps);
    }
    Evidence::OfProof(0)
}

// "the sheet's 64 bytes after "agrees" and the used lines of the book after "cannot agree""
pub fn hand_back<'a>(
    limits: Limits,
    number: u64,
    steps: usize,
    proof: &'a [u8],
    model: &'a [u8],
) -> &'a [u8]
    ensures { result.now ≡ handed_back limits number steps proof.now model.now }
{
    let part = evidence(limits, number, steps, proof, model);
    match part {
        Evidence::OfProof(n) => &proof[0..n],
        Evidence::OfModel(n) => &model[0..n],
    }
}
