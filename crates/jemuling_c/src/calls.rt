// The calls that name no edition, for C.
ghost use Rattle.std.specs.Prelude.{◌≡◌};
ghost use Rattle.rules_types.specs.Terms.{standard, preview};
ghost use Rattle.rules.specs.Calls.{solve, proof_checked, model_checked, evidence};
ghost use Rattle.jemuling.specs.Told.{solved_told, checked_told, evidence_told};
ghost use Rattle.jemuling.specs.Promised.{Delivered, BookChecked, SheetChecked, PartHanded};

use jemuling::calls;
use jemuling::told::{SolvedTold, Told};

// Whether a problem can be satisfied, with a model or a proof that shows it.
#[unsafe(no_mangle)]
pub extern "C" fn jemuling_solve(input: &[u8], proof: &mut [u8], model: &mut [u8]) -> SolvedTold
    ensures value { result ≡ solved_told (solve standard input.now proof.old model.old).solved }
    ensures proof_after { proof.new ≡ (solve standard input.now proof.old model.old).proof }
    ensures model_after { model.new ≡ (solve standard input.now proof.old model.old).model }
    ensures delivered { Delivered standard input.now proof.old model.old result
        proof.new model.new }
{
    calls::jemuling_solve(input, proof, model)
}

// The same with a preview's lines.
#[unsafe(no_mangle)]
pub extern "C" fn jemuling_preview_solve(
    input: &[u8],
    proof: &mut [u8],
    model: &mut [u8],
) -> SolvedTold
    ensures value { result ≡ solved_told (solve preview input.now proof.old model.old).solved }
    ensures proof_after { proof.new ≡ (solve preview input.now proof.old model.old).proof }
    ensures model_after { model.new ≡ (solve preview input.now proof.old model.old).model }
    ensures delivered { Delivered preview input.now proof.old model.old result
        proof.new model.new }
{
    calls::jemuling_preview_solve(input, proof, model)
}

// Whether a proof refutes a problem.
#[unsafe(no_mangle)]
pub extern "C" fn jemuling_check_book(input: &[u8], proof: &[u8]) -> Told
    ensures value { result ≡ checked_told (proof_checked standard input.now proof.now) }
    ensures book_checked { BookChecked standard input.now proof.now result }
{
    calls::jemuling_check_book(input, proof)
}

// The same of a proof of a preview's lines.
#[unsafe(no_mangle)]
pub extern "C" fn jemuling_preview_check_book(input: &[u8], proof: &[u8]) -> Told
    ensures value { result ≡ checked_told (proof_checked preview input.now proof.now) }
    ensures book_checked { BookChecked preview input.now proof.now result }
{
    calls::jemuling_preview_check_book(input, proof)
}

// Whether a model satisfies a problem.
#[unsafe(no_mangle)]
pub extern "C" fn jemuling_check_sheet(input: &[u8], model: &[u8]) -> Told
    ensures value { result ≡ checked_told (model_checked standard input.now model.now) }
    ensures sheet_checked { SheetChecked standard input.now model.now result }
{
    calls::jemuling_check_sheet(input, model)
}

// Which part of proof or model is handed back, from a verdict's number and lines.
#[unsafe(no_mangle)]
pub extern "C" fn jemuling_hand_back(number: u64, lines: usize, proof: &[u8], model: &[u8]) -> Told
    ensures value { result ≡ evidence_told (evidence standard.limits number lines proof.now model.now) }
    ensures part_handed { PartHanded standard.limits number lines proof.now model.now result }
{
    calls::jemuling_hand_back(number, lines, proof, model)
}

// The same for a preview.
#[unsafe(no_mangle)]
pub extern "C" fn jemuling_preview_hand_back(
    number: u64,
    lines: usize,
    proof: &[u8],
    model: &[u8],
) -> Told
    ensures value { result ≡ evidence_told (evidence preview.limits number lines proof.now model.now) }
    ensures part_handed { PartHanded preview.limits number lines proof.now model.now result }
{
    calls::jemuling_preview_hand_back(number, lines, proof, model)
}
