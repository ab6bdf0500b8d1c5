// The text of an answer: the verdict's line or the refusal's, and what follows it.
ghost use Rattle.std.specs.Prelude.{◌≡◌, ◌*◌, ◌≤◌, length, take};
ghost use Rattle.rules_types.specs.Limits.{step_bytes, steps};
ghost use Rattle.rules_types.specs.Terms.{standard};
ghost use Rattle.rules.specs.Print.{printed};
ghost use Rattle.io.specs.Counts.{IsPrefixLen};
ghost use Rattle.printing.specs.Appended.{Appended};
ghost use Rattle.printing.specs.Texts.{Printable};
ghost use Rattle.answer_text.specs.Answers.{satisfiable_text, unsatisfiable_text, decided_text, solved_text, Handed, Ready, text_bytes};

use handing_back::evidence::hand_back;
use jemuling::told::verdict_number;
use printing::counts::{put_counts, put_refusal};
use printing::model::put_model;
use printing::proof::put_proof;
use rules_types::answers::{Answer, Solved, Verdict};
use rules_types::limits::Limits;
use rules_types::terms::Terms;
use solving::solve::solve_within;

// As many as the longest text may take: 1,024 lines of four numbers, each of at most 20 digits, behind two lines of 76 bytes.
pub const TEXT_BYTES: usize = 86092;

fn put_satisfiable(out: &mut [u8], n: usize, pairs: u64, model: &[u8]) -> usize
    requires printable { Printable model.now }
    requires text_bytes_in_bounds { text_bytes ≤ length out.old }
    ensures { Appended 0 (satisfiable_text n pairs model.now) out.old out.new result }
{
    let next = put_counts(out, 0, b"agrees", n as u64, pairs);
    put_model(out, next, model)
}

fn put_unsatisfiable(out: &mut [u8], n: usize, pairs: u64, proof: &[u8]) -> usize
    requires n_le_steps { n ≤ steps }
    requires n_in_bounds { step_bytes * n ≤ length proof.now }
    requires text_bytes_in_bounds { text_bytes ≤ length out.old }
    ensures { Appended 0 (unsatisfiable_text n pairs proof.now) out.old out.new result }
{
    let next = put_counts(out, 0, b"cannot", n as u64, pairs);
    put_proof(out, next, proof, n)
}

// A verdict, with the part that is handed back.
fn put_decided(out: &mut [u8], v: Verdict, n: usize, pairs: u64, evidence: &[u8]) -> usize
    requires handed { Handed v n evidence.now }
    requires text_bytes_in_bounds { text_bytes ≤ length out.old }
    ensures { Appended 0 (decided_text v n pairs evidence.now) out.old out.new result }
{
    match v {
        Verdict::Satisfiable => put_satisfiable(out, n, pairs, evidence),
        Verdict::Unsatisfiable => put_unsatisfiable(out, n, pairs, evidence),
        Verdict::Unwritten => put_counts(out, 0, b"unwritten", n as u64, pairs),
    }
}

// What solving said and left.
fn put_solved<'a>(out: &mut [u8], solved: Solved, proof: &'a [u8], model: &'a [u8]) -> usize
    requires ready { Ready solved proof.now model.now }
    requires text_bytes_in_bounds { text_bytes ≤ length out.old }
    ensures { Appended 0 (solved_text solved proof.now model.now) out.old out.new result }
{
    let answer = solved.answer;
    let pairs = solved.pairs;
    match answer {
        Answer::Decided(v, n) => {
            let evidence = hand_back(Limits::standard(), verdict_number(v), n, proof, model);
            put_decided(out, v, n, pairs, evidence)
        }
        Answer::Refused(f, place) => put_refusal(out, 0, f, place, pairs),
    }
}

// The text of what solving says of a problem: the first so many bytes.
pub fn answer_text(input: &[u8], out: &mut [u8; TEXT_BYTES]) -> usize
    ensures out_after { take result out.new ≡ printed standard input.now }
    ensures prefix_len { IsPrefixLen result out.new }
{
    let mut proof = [0u8; Limits::STEPS as usize * Limits::STEP_BYTES];
    let mut model = [0u8; Limits::MODEL_BYTES];
    let solved = solve_within(input, &mut proof, &mut model, Terms::standard());
    put_solved(out, solved, &proof, &model)
}
