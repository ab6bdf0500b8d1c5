// What each end of an elimination leaves: the answer, the proof's bytes and the model's.
ghost use Rattle.std.specs.Prelude.{◌≡◌, ◌*◌, ◌≤◌, length};
ghost use Rattle.rules_types.specs.Limits.{step_bytes, model_bytes, booleans, rationals};
ghost use Rattle.theory_saturation.specs.Order.{Ordered};
ghost use Rattle.lines.specs.Order.{variables_of};
ghost use Rattle.steps.specs.Places.{zeroed};
ghost use Rattle.steps.specs.Lines.{ReadyLines};
ghost use Rattle.masks.specs.Mask.{outside};
ghost use Rattle.walk.specs.Narrow.{Narrow};
ghost use Rattle.solving.specs.Ends.{refused_by, decided_by, zero_model, Written};

use fields::put_zeros;
use models::encode::write_model;
use placing::point::Point;
use rounds::sequence::Run;
use rules_types::answers::{Answer, Refusal, Solved, Verdict};
use rules_types::limits::Limits;
use steps::store::zero;
use walk::backwards::walk;

// "zero the book's 65,536 bytes and leave the sheet"
pub fn refuse(proof: &mut [u8], f: Refusal, c: Point, limits: Limits) -> Solved
    requires { step_bytes * limits.steps ≤ length proof.old }
    ensures value { result ≡ refused_by f c }
    ensures proof_after { proof.new ≡ zeroed 0 limits.steps proof.old }
{
    zero(proof, 0, limits.steps as usize);
    Solved {
        answer: Answer::Refused(f, c.steps),
        pairs: c.pairs,
    }
}

fn decided(v: Verdict, c: Point) -> Solved
    ensures { result ≡ decided_by v c }
{
    Solved {
        answer: Answer::Decided(v, c.steps),
        pairs: c.pairs,
    }
}

// "The book's unused lines are 0; the sheet's 64 bytes are 0 unless "agrees"."
pub fn without_model(
    proof: &mut [u8],
    model: &mut [u8],
    v: Verdict,
    c: Point,
    limits: Limits,
) -> Solved
    requires steps_le_steps { c.steps ≤ limits.steps }
    requires steps_in_bounds { step_bytes * limits.steps ≤ length proof.old }
    requires model_bytes_in_bounds { model_bytes ≤ length model.old }
    ensures value { result ≡ decided_by v c }
    ensures proof_after { proof.new ≡ zeroed c.steps limits.steps proof.old }
    ensures model_after { model.new ≡ zero_model model.old }
{
    zero(proof, c.steps, limits.steps as usize);
    put_zeros(model, 0, Limits::MODEL_BYTES);
    decided(v, c)
}

// "Without an empty line, turns are walked backwards." Boolean variables not in `occurring` are open.
pub fn saturated(
    b: u8,
    r: u8,
    occurring: u32,
    proof: &mut [u8],
    model: &mut [u8],
    run: Run,
    limits: Limits,
) -> Solved
    requires b_le_booleans { b ≤ booleans }
    requires r_le_rationals { r ≤ rationals }
    requires steps_le_steps { run.end.steps ≤ limits.steps }
    requires steps_in_bounds { step_bytes * limits.steps ≤ length proof.old }
    requires model_bytes_in_bounds { model_bytes ≤ length model.old }
    requires ready_lines { ReadyLines proof.old run.end.steps }
    requires narrow { Narrow proof.old run.end.steps r }
    requires ordered { Ordered (variables_of run.order) }
    ensures written { Written b r (outside occurring) (variables_of run.order) run.end proof.old model.old
        model.new result }
    ensures proof_after { proof.new ≡ zeroed run.end.steps limits.steps proof.old }
{
    let c = run.end;
    let Some(m) = walk(proof, c.steps, run.order, r) else {
        return without_model(proof, model, Verdict::Unwritten, c, limits);
    };
    zero(proof, c.steps, limits.steps as usize);
    write_model(model, b, r, occurring, m);
    decided(Verdict::Satisfiable, c)
}
