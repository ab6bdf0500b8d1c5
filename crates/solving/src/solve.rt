// "1 to 3 are tested in order, 4 to 11 as fields are read, then 12, 13. 1 to 13 report no pairs and alter no byte."
ghost use Rattle.std.specs.Prelude.{◌≡◌, ◌≤◌};
ghost use Rattle.rules_types.specs.Limits.{most_steps};
ghost use Rattle.rules.specs.Calls.{solve};
ghost use Rattle.solving.specs.Leaves.{faulted_by};

use crate::decide::decide;
use problem_read::read::read;
use problem_scan::cursor::Scan;
use rules_types::answers::{Answer, Refusal, Solved};
use rules_types::limits::Limits;
use rules_types::terms::Terms;

fn faulted(f: Refusal, place: usize) -> Solved
    ensures { result ≡ faulted_by f place }
{
    Solved {
        answer: Answer::Refused(f, place),
        pairs: 0,
    }
}

// On all terms: as many lines as a parent's two bytes can number.
pub fn solve_within(input: &[u8], proof: &mut [u8], model: &mut [u8], terms: Terms) -> Solved
    requires { terms.limits.steps ≤ most_steps }
    ensures value { result ≡ (solve terms input.now proof.old model.old).solved }
    ensures proof_after { proof.new ≡ (solve terms input.now proof.old model.old).proof }
    ensures model_after { model.new ≡ (solve terms input.now proof.old model.old).model }
{
    if proof.len() < terms.limits.proof_bytes() {
        return faulted(Refusal::ShortProof, 0);
    }
    if model.len() < Limits::MODEL_BYTES {
        return faulted(Refusal::ShortModel, 0);
    }
    let s = read(input);
    match s {
        Scan::Fault(f, place) => faulted(f, place),
        Scan::Sound(sizes) => decide(input, sizes, proof, model, terms),
    }
}
