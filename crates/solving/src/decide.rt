// A problem that was read without fault: its elimination, and what the end of it leaves.
ghost use Rattle.std.specs.Prelude.{◌≡◌, ◌*◌, ◌≤◌, length};
ghost use Rattle.rules_types.specs.Limits.{step_bytes, model_bytes, most_steps};
ghost use Rattle.rules.specs.Calls.{said, proof_after, model_after};
ghost use Rattle.problem_read.specs.Readable.{Readable};
ghost use Rattle.solving.specs.Leaves.{outcome_at};

use crate::conclude::{refuse, saturated, without_model};
use elimination::eliminate::eliminate;
use placing::point::Progress;
use problem_read::occurring::occurring;
use problem_scan::cursor::Sizes;
use rules_types::answers::{Refusal, Solved, Verdict};
use rules_types::terms::Terms;

pub fn decide(
    input: &[u8],
    sizes: Sizes,
    proof: &mut [u8],
    model: &mut [u8],
    terms: Terms,
) -> Solved
    requires readable { Readable input.now sizes }
    requires steps_in_bounds { step_bytes * terms.limits.steps ≤ length proof.old }
    requires model_bytes_in_bounds { model_bytes ≤ length model.old }
    requires steps_le_most_steps { terms.limits.steps ≤ most_steps }
    ensures value { result ≡ said (outcome_at terms input.now sizes) }
    ensures proof_after { proof.new ≡ proof_after terms.limits (outcome_at terms input.now sizes) proof.old }
    ensures model_after { model.new ≡ model_after (outcome_at terms input.now sizes) model.old }
{
    let limits = terms.limits;
    let run = eliminate(input, sizes, proof, terms);
    let c = run.end;
    let progress = c.progress;
    match progress {
        Progress::Overflow => refuse(proof, Refusal::Overflow, c, limits),
        Progress::OutOfSteps => refuse(proof, Refusal::OutOfSteps, c, limits),
        Progress::Empty => without_model(proof, model, Verdict::Unsatisfiable, c, limits),
        Progress::Running => {
            let used = occurring(input, sizes);
            saturated(
                sizes.booleans,
                sizes.rationals,
                used,
                proof,
                model,
                run,
                limits,
            )
        }
    }
}
