// The calls. None has a `requires`: nothing checks C's arguments but the code itself. Each is equal to document 01's definition, and
// keeps what the demands promise of it (specs/Promised.antt). One for each limit of lines, 1,024 and a preview's 256, where it matters.
ghost use Rattle.std.specs.Prelude.{◌≡◌};
ghost use Rattle.rules_types.specs.Terms.{standard, preview};
ghost use Rattle.rules.specs.Calls.{solve, proof_checked, model_checked, evidence};
ghost use Rattle.jemuling.specs.Told.{solved_told, checked_told, evidence_told};
ghost use Rattle.jemuling.specs.Promised.{Delivered, BookChecked, SheetChecked, PartHanded};

use crate::on_terms::{check_book_on, check_sheet_on, hand_back_on, solve_on};
use crate::told::{SolvedTold, Told};
use rules_types::limits::Limits;
use rules_types::terms::Terms;

// Whether a problem can be satisfied, with a model or a proof that shows it.
pub fn jemuling_solve(input: &[u8], proof: &mut [u8], model: &mut [u8]) -> SolvedTold
    ensures value { result ≡ solved_told (solve standard input.now proof.old model.old).solved }
    ensures proof_after { proof.new ≡ (solve standard input.now proof.old model.old).proof }
    ensures model_after { model.new ≡ (solve standard input.now proof.old model.old).model }
    ensures delivered { Delivered standard input.now proof.old model.old result
        proof.new model.new }
{
    solve_on(input, proof, model, Terms::standard())
}

// The same with a preview's lines.
pub fn jemuling_preview_solve(input: &[u8], proof: &mut [u8], model: &mut [u8]) -> SolvedTold
    ensures value { result ≡ solved_told (solve preview input.now proof.old model.old).solved }
    ensures proof_after { proof.new ≡ (solve preview input.now proof.old model.old).proof }
    ensures model_after { model.new ≡ (solve preview input.now proof.old model.old).model }
    ensures delivered { Delivered preview input.now proof.old model.old result
        proof.new model.new }
{
    solve_on(input, proof, model, Terms::preview())
}

// Whether a proof refutes a problem.
pub fn jemuling_check_book(input: &[u8], proof: &[u8]) -> Told
    ensures value { result ≡ checked_told (proof_checked standard input.now proof.now) }
    ensures book_checked { BookChecked standard input.now proof.now result }
{
    check_book_on(input, proof, Terms::standard())
}

// The same of a proof of a preview's lines.
pub fn jemuling_preview_check_book(input: &[u8], proof: &[u8]) -> Told
    ensures value { result ≡ checked_told (proof_checked preview input.now proof.now) }
    ensures book_checked { BookChecked preview input.now proof.now result }
{
    check_book_on(input, proof, Terms::preview())
}

// Whether a model satisfies a problem.
pub fn jemuling_check_sheet(input: &[u8], model: &[u8]) -> Told
    ensures value { result ≡ checked_told (model_checked standard input.now model.now) }
    ensures sheet_checked { SheetChecked standard input.now model.now result }
{
    check_sheet_on(input, model, Terms::standard())
}

// Which part of proof or model is handed back, from a verdict's number and lines.
pub fn jemuling_hand_back(number: u64, lines: usize, proof: &[u8], model: &[u8]) -> Told
    ensures value { result ≡ evidence_told (evidence standard.limits number lines proof.now model.now) }
    ensures part_handed { PartHanded standard.limits number lines proof.now model.now result }
{
    hand_back_on(number, lines, proof, model, Limits::standard())
}

// The same for a preview.
pub fn jemuling_preview_hand_back(number: u64, lines: usize, proof: &[u8], model: &[u8]) -> Told
    ensures value { result ≡ evidence_told (evidence preview.limits number lines proof.now model.now) }
    ensures part_handed { PartHanded preview.limits number lines proof.now model.now result }
{
    hand_back_on(number, lines, proof, model, Limits::preview())
}
