// The steps of a proof: "lines" with their number, then a line for each with "how, which, first, second".
ghost use Rattle.std.specs.Prelude.{◌+◌, ◌*◌, ◌≤◌, length};
ghost use Rattle.rules_types.specs.Limits.{step_bytes};
ghost use Rattle.steps.specs.Origin.{header_of};
ghost use Rattle.printing.specs.Appended.{Appended};
ghost use Rattle.printing.specs.Room.{step_room, proof_room};
ghost use Rattle.printing.specs.Texts.{header_text, steps_text, proof_text};

use crate::counts::{put_count, put_pair};
use crate::words::put_number;
use steps::access::origin_at;
use steps::origin::Origin;

fn put_origin(out: &mut [u8], at: usize, o: Origin) -> usize
    requires { at + step_room ≤ length out.old }
    ensures appended { Appended at (header_text (header_of o)) out.old out.new result }
    ensures upper_bound { result ≤ at + step_room }
{
    let which = put_number(out, at, u64::from(o.how), b' ');
    let parents = put_number(out, which, u64::from(o.which), b' ');
    put_pair(out, parents, o.first, o.second)
}

// The first n steps.
fn put_steps(out: &mut [u8], at: usize, proof: &[u8], n: usize) -> usize
    requires n_in_bounds { step_bytes * n ≤ length proof.now }
    requires n_in_bounds_2 { at + step_room * n ≤ length out.old }
    ensures appended { Appended at (steps_text proof.now n) out.old out.new result }
    ensures upper_bound { result ≤ at + step_room * n }
{
    let mut next = at;
    for i in 0..n {
        next = put_origin(out, next, origin_at(proof, i));
    }
    next
}

pub fn put_proof(out: &mut [u8], at: usize, proof: &[u8], n: usize) -> usize
    requires n_in_bounds { step_bytes * n ≤ length proof.now }
    requires n_in_bounds_2 { at + proof_room n ≤ length out.old }
    ensures appended { Appended at (proof_text proof.now n) out.old out.new result }
    ensures upper_bound { result ≤ at + proof_room n }
{
    let next = put_count(out, at, b"lines", n as u64);
    put_steps(out, next, proof, n)
}
