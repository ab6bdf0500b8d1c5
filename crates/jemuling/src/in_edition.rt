// The same for a caller who names the edition: 19, "tested first in every call that names one".
ghost use Rattle.std.specs.Prelude.{◌≡◌, ◌≤◌};
ghost use Rattle.rules_types.specs.Limits.{most_steps};
ghost use Rattle.rules.specs.Calls.{solve_in, proof_checked_in, model_checked_in};
ghost use Rattle.jemuling.specs.Told.{solved_told, checked_told};
ghost use Rattle.jemuling.specs.Promised.{DeliveredIn, BookCheckedIn, SheetCheckedIn};

use crate::on_terms::{check_book_on, check_sheet_on, solve_on};
use crate::told::{SolvedTold, Told, checked_told, solved_told};
use rules_types::answers::{Answer, Checked, Refusal, Solved};
use rules_types::limits::Limits;
use rules_types::terms::{Edition, Named, Terms};

// Whether a problem can be satisfied, with a model or a proof that shows it.
pub fn solve_in(
    edition: u64,
    input: &[u8],
    proof: &mut [u8],
    model: &mut [u8],
    limits: Limits,
) -> SolvedTold
    requires { limits.steps ≤ most_steps }
    ensures value { result ≡ solved_told (solve_in limits edition input.now proof.old model.old).solved }
    ensures proof_after { proof.new ≡ (solve_in limits edition input.now proof.old model.old).proof }
    ensures model_after { model.new ≡ (solve_in limits edition input.now proof.old model.old).model }
    ensures delivered_in { DeliveredIn limits edition input.now proof.old model.old result
        proof.new model.new }
{
    let named = Edition::named(edition);
    match named {
        Named::Unknown => solved_told(Solved {
            answer: Answer::Refused(Refusal::Edition, 0),
            pairs: 0,
        }),
        Named::Known(e) => solve_on(
            input,
            proof,
            model,
            Terms {
                limits: limits,
                edition: e,
            },
        ),
    }
}

// Whether a proof refutes a problem.
pub fn check_book_in(edition: u64, input: &[u8], proof: &[u8], limits: Limits) -> Told
    requires { limits.steps ≤ most_steps }
    ensures value { result ≡ checked_told (proof_checked_in limits edition input.now proof.now) }
    ensures book_checked_in { BookCheckedIn limits edition input.now proof.now result }
{
    let named = Edition::named(edition);
    match named {
        Named::Unknown => checked_told(Checked::Refused(Refusal::Edition, 0)),
        Named::Known(e) => check_book_on(
            input,
            proof,
            Terms {
                limits: limits,
                edition: e,
            },
        ),
    }
}

// Whether a model satisfies a problem.
pub fn check_sheet_in(edition: u64, input: &[u8], model: &[u8], limits: Limits) -> Told
    ensures value { result ≡ checked_told (model_checked_in limits edition input.now model.now) }
    ensures sheet_checked_in { SheetCheckedIn limits edition input.now model.now result }
{
    let named = Edition::named(edition);
    match named {
        Named::Unknown => checked_told(Checked::Refused(Refusal::Edition, 0)),
        Named::Known(e) => check_sheet_on(
            input,
            model,
            Terms {
                limits: limits,
                edition: e,
            },
        ),
    }
}
