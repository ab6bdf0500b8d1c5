// What a call does on any terms, the number of lines and the edition: one body for every caller.
ghost use Rattle.std.specs.Prelude.{◌≡◌, ◌≤◌};
ghost use Rattle.rules_types.specs.Limits.{most_steps};
ghost use Rattle.rules.specs.Calls.{solve, proof_checked, model_checked, evidence};
ghost use Rattle.jemuling.specs.Told.{solved_told, checked_told, evidence_told};
ghost use Rattle.jemuling.specs.Promised.{Delivered, BookChecked, SheetChecked, PartHanded};

use crate::told::{SolvedTold, Told, checked_told, evidence_told, solved_told};
use handing_back::evidence::evidence;
use model_check::check::check_model;
use proof_check::check::check_proof;
use rules_types::limits::Limits;
use rules_types::terms::Terms;
use solving::solve::solve_within;

// Whether a problem can be satisfied, with a model or a proof that shows it.
pub fn solve_on(input: &[u8], proof: &mut [u8], model: &mut [u8], terms: Terms) -> SolvedTold
    requires { terms.limits.steps ≤ most_steps }
    ensures value { result ≡ solved_told (solve terms input.now proof.old model.old).solved }
    ensures proof_after { proof.new ≡ (solve terms input.now proof.old model.old).proof }
    ensures model_after { model.new ≡ (solve terms input.now proof.old model.old).model }
    ensures delivered { Delivered terms input.now proof.old model.old result
        proof.new model.new }
{
    solved_told(solve_within(input, proof, model, terms))
}

// Whether a proof refutes a problem.
pub fn check_book_on(input: &[u8], proof: &[u8], terms: Terms) -> Told
    requires { terms.limits.steps ≤ most_steps }
    ensures value { result ≡ checked_told (proof_checked terms input.now proof.now) }
    ensures book_checked { BookChecked terms input.now proof.now result }
{
    checked_told(check_proof(input, proof, terms))
}

// Whether a model satisfies a problem.
pub fn check_sheet_on(input: &[u8], model: &[u8], terms: Terms) -> Told
    ensures value { result ≡ checked_told (model_checked terms input.now model.now) }
    ensures sheet_checked { SheetChecked terms input.now model.now result }
{
    checked_told(check_model(input, model, terms))
}

// Which part of proof or model is handed back, from a verdict's number and lines.
pub fn hand_back_on(number: u64, lines: usize, proof: &[u8], model: &[u8], limits: Limits) -> Told
    ensures value { result ≡ evidence_told (evidence limits number lines proof.now model.now) }
    ensures part_handed { PartHanded limits number lines proof.now model.now result }
{
    evidence_told(evidence(limits, number, lines, proof, model))
}
