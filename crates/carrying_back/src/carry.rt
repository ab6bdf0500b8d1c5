// The call: "after 13 it tests 20, then 2 on both sheets, then 17 against the new question", then 22.
ghost use Rattle.std.specs.Prelude.{◌≡◌};
ghost use Rattle.rules.specs.Convert.{carry_back};
ghost use Rattle.problem_read.specs.Readable.{Readable};

use crate::numerators::carried;
use kept_rationals::kept::gather;
use kept_rationals::places::place_of;
use models::encode::write_model;
use models::model::Model;
use models::read::read_model;
use problem_read::occurring::occurring;
use problem_read::read::read;
use problem_scan::cursor::{Scan, Sizes};
use rules_types::answers::{Carried, Refusal};
use rules_types::limits::Limits;

// Of a problem that was read without fault.
fn carry_readable(input: &[u8], bytes: &[u8], target: &mut [u8], sizes: Sizes) -> Carried
    requires { Readable input.now sizes }
    ensures value { result ≡ (carry_back input.now bytes.now target.old).carried }
    ensures target_after { target.new ≡ (carry_back input.now bytes.now target.old).model }
{
    let mask = gather(input, sizes).mask;
    let r = place_of(mask, sizes.rationals);
    if Limits::RATIONALS < r as usize {
        return Carried::Refused(Refusal::SplitRationals, 0);
    }
    if bytes.len() < Limits::MODEL_BYTES || target.len() < Limits::MODEL_BYTES {
        return Carried::Refused(Refusal::ShortModel, 0);
    }
    let occurs = occurring(input, sizes);
    let new = match read_model(bytes, sizes.booleans, r, occurs) {
        Ok(new) => new,
        Err(place) => return Carried::Refused(Refusal::BadModel, place),
    };
    let numerators = match carried(new.numerators, mask, sizes.rationals) {
        Ok(numerators) => numerators,
        Err(variable) => return Carried::Refused(Refusal::CarriedRange, variable),
    };
    let model = Model { numerators, ..new };
    write_model(target, sizes.booleans, sizes.rationals, occurs, model);
    Carried::Done
}

pub fn carry_back(input: &[u8], bytes: &[u8], target: &mut [u8]) -> Carried
    ensures value { result ≡ (carry_back input.now bytes.now target.old).carried }
    ensures target_after { target.new ≡ (carry_back input.now bytes.now target.old).model }
{
    let scan = read(input);
    match scan {
        Scan::Fault(f, place) => Carried::Refused(f, place),
        Scan::Sound(sizes) => carry_readable(input, bytes, target, sizes),
    }
}
