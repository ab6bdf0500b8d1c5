// The call: the problem's faults, 20, 21, then the new problem.
ghost use Rattle.std.specs.Prelude.{◌≡◌, ◌≤◌, length};
ghost use Rattle.rules_types.specs.Limits.{rationals};
ghost use Rattle.rules.specs.Convert.{convert};
ghost use Rattle.problem_read.specs.Readable.{Readable};
ghost use Rattle.fields.specs.Field.{stored};
ghost use Rattle.kept_rationals.specs.Kept.{inside};
ghost use Rattle.conversion.specs.Problem.{split_problem_at};

use crate::clauses::put_clauses;
use fields::put_u16;
use kept_rationals::kept::gather;
use kept_rationals::places::place_of;
use problem_read::read::read;
use problem_scan::cursor::{Scan, Sizes};
use rules_types::answers::{Converted, Refusal};
use rules_types::layout::{FIRST_CLAUSE, PROBLEM_BOOLEANS, PROBLEM_CLAUSES, PROBLEM_RATIONALS};
use rules_types::limits::Limits;

// The new problem, with the variables of a mask kept and r variables in all.
fn put_problem(out: &mut [u8], input: &[u8], sizes: Sizes, mask: u32, r: u8)
    requires readable { Readable input.now sizes }
    requires sizes_in_bounds { length (split_problem_at (inside mask) r input.now sizes) ≤ length out.old }
    ensures { out.new ≡ stored 0 (split_problem_at (inside mask) r input.now sizes) out.old }
{
    out[PROBLEM_BOOLEANS] = sizes.booleans;
    out[PROBLEM_RATIONALS] = r;
    put_u16(out, PROBLEM_CLAUSES, sizes.clauses);
    put_clauses(
        out,
        FIRST_CLAUSE,
        input,
        FIRST_CLAUSE,
        sizes.clauses,
        sizes.rationals,
        mask,
    );
}

// Of a problem that was read without fault: the length is known before a byte is written.
fn convert_readable(input: &[u8], out: &mut [u8], sizes: Sizes) -> Converted
    requires { Readable input.now sizes }
    ensures value { result ≡ (convert input.now out.old).converted }
    ensures out_after { out.new ≡ (convert input.now out.old).output }
{
    let kept = gather(input, sizes);
    let r = place_of(kept.mask, sizes.rationals);
    if Limits::RATIONALS < r as usize {
        return Converted::Refused(Refusal::SplitRationals, 0);
    }
    let more = 4 * ((r - sizes.rationals) as usize);
    let length = input.len() + kept.comparisons * more;
    if Limits::PROBLEM_BYTES < length {
        return Converted::Refused(Refusal::OutputSpace, 0);
    }
    if out.len() < length {
        return Converted::Refused(Refusal::OutputSpace, 0);
    }
    put_problem(out, input, sizes, kept.mask, r);
    Converted::Length(length)
}

pub fn convert(input: &[u8], out: &mut [u8]) -> Converted
    ensures value { result ≡ (convert input.now out.old).converted }
    ensures out_after { out.new ≡ (convert input.now out.old).output }
{
    let scan = read(input);
    match scan {
        Scan::Fault(f, place) => Converted::Refused(f, place),
        Scan::Sound(sizes) => convert_readable(input, out, sizes),
    }
}
