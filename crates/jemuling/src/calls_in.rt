// 02, (v): the calls that name an edition: "The caller names edition 1 or 2." Handing back names none.
ghost use Rattle.std.specs.Prelude.{◌≡◌};
ghost use Rattle.rules_types.specs.Limits.{standard, preview};
ghost use Rattle.rules.specs.Calls.{solve_in, proof_checked_in, model_checked_in};
ghost use Rattle.jemuling.specs.Told.{solved_told, checked_told};
ghost use Rattle.jemuling.specs.Promised.{DeliveredIn, BookCheckedIn, SheetCheckedIn};

use crate::in_edition::{check_book_in, check_sheet_in, solve_in};
use crate::told::{SolvedTold, Told};
use rules_types::limits::Limits;

// Whether a problem can be satisfied, with a model or a proof that shows it.
pub fn jemuling_solve_in(
    edition: u64,
    input: &[u8],
    proof: &mut [u8],
    model: &mut [u8],
) -> SolvedTold
    ensures value { result ≡ solved_told (solve_in standard edition input.now proof.old model.old).solved }
    ensures proof_after { proof.new ≡ (solve_in standard edition input.now proof.old model.old).proof }
    ensures model_after { model.new ≡ (solve_in standard edition input.now proof.old model.old).model }
    ensures delivered_in { DeliveredIn standard edition input.now proof.old model.old result
        proof.new model.new }
{
    solve_in(edition, input, proof, model, Limits::standard())
}

// The same with a preview's lines.
pub fn jemuling_preview_solve_in(
    edition: u64,
    input: &[u8],
    proof: &mut [u8],
    model: &mut [u8],
) -> SolvedTold
    ensures value { result ≡ solved_told (solve_in preview edition input.now proof.old model.old).solved }
    ensures proof_after { proof.new ≡ (solve_in preview edition input.now proof.old model.old).proof }
    ensures model_after { model.new ≡ (solve_in preview edition input.now proof.old model.old).model }
    ensures delivered_in { DeliveredIn preview edition input.now proof.old model.old result
        proof.new model.new }
{
    solve_in(edition, input, proof, model, Limits::preview())
}

// Whether a proof refutes a problem.
pub fn jemuling_check_book_in(edition: u64, input: &[u8], proof: &[u8]) -> Told
    ensures value { result ≡ checked_told (proof_checked_in standard edition input.now proof.now) }
    ensures book_checked_in { BookCheckedIn standard edition input.now proof.now result }
{
    check_book_in(edition, input, proof, Limits::standard())
}

// The same of a proof of a preview's lines.
pub fn jemuling_preview_check_book_in(edition: u64, input: &[u8], proof: &[u8]) -> Told
    ensures value { result ≡ checked_told (proof_checked_in preview edition input.now proof.now) }
    ensures book_checked_in { BookCheckedIn preview edition input.now proof.now result }
{
    check_book_in(edition, input, proof, Limits::preview())
}

// Whether a model satisfies a problem.
pub fn jemuling_check_sheet_in(edition: u64, input: &[u8], model: &[u8]) -> Told
    ensures value { result ≡ checked_told (model_checked_in standard edition input.now model.now) }
    ensures sheet_checked_in { SheetCheckedIn standard edition input.now model.now result }
{
    check_sheet_in(edition, input, model, Limits::standard())
}
