// The call: "question faults (3 to 13), then ... 2 and 17", then the clauses.
ghost use Rattle.std.specs.Prelude.{◌≡◌};
ghost use Rattle.rules.specs.Calls.{model_checked};
ghost use Rattle.rules.specs.Checker.{check_clauses};
ghost use Rattle.theory_vectors.specs.Amounts.{Amounts};
ghost use Rattle.models.specs.Model.{assignment};
ghost use Rattle.problem_read.specs.Parsed.{posed_at};
ghost use Rattle.problem_read.specs.Readable.{Readable};

use crate::failing::{check_added, check_clauses};
use models::model::Model;
use models::read::read_model;
use problem_clauses::edition::added;
use problem_read::occurring::occurring;
use problem_read::read::read;
use problem_scan::cursor::{Scan, Sizes};
use rules_types::answers::{Checked, Refusal};
use rules_types::layout::FIRST_CLAUSE;
use rules_types::limits::Limits;
use rules_types::terms::{Edition, Terms};

// The written clauses, then those that the edition adds.
fn check_posed(input: &[u8], sizes: Sizes, model: Model, edition: Edition) -> Checked
    requires readable { Readable input.now sizes }
    requires amounts { Amounts model.numerators }
    ensures { result ≡ check_clauses (assignment model) 0 (posed_at edition input.now sizes).clauses }
{
    let r = sizes.rationals;
    let n = sizes.clauses;
    let written = check_clauses(input, FIRST_CLAUSE, r, n, model);
    match written {
        Checked::Accepted => check_added(n, added(edition, r), model),
        Checked::Fails(k) => Checked::Fails(k),
        Checked::Refused(f, place) => Checked::Refused(f, place),
    }
}

// Of a problem that was read without fault.
fn check_readable(input: &[u8], bytes: &[u8], sizes: Sizes, terms: Terms) -> Checked
    requires { Readable input.now sizes }
    ensures { result ≡ model_checked terms input.now bytes.now }
{
    if bytes.len() < Limits::MODEL_BYTES {
        return Checked::Refused(Refusal::ShortModel, 0);
    }
    let occurs = occurring(input, sizes);
    match read_model(bytes, sizes.booleans, sizes.rationals, occurs) {
        Ok(model) => check_posed(input, sizes, model, terms.edition),
        Err(place) => Checked::Refused(Refusal::BadModel, place),
    }
}

pub fn check_model(input: &[u8], bytes: &[u8], terms: Terms) -> Checked
    ensures { result ≡ model_checked terms input.now bytes.now }
{
    let scan = read(input);
    match scan {
        Scan::Fault(f, place) => Checked::Refused(f, place),
        Scan::Sound(sizes) => check_readable(input, bytes, sizes, terms),
    }
}
