// 02, (xi): the call that writes the short proof of a proof that the check accepts.
ghost use Rattle.std.specs.Prelude.{◌≡◌};
ghost use Rattle.rules_types.specs.Limits.{standard};
ghost use Rattle.rules.specs.Trim.{trim_in};
ghost use Rattle.jemuling.specs.Told.{trimmed_told};
ghost use Rattle.jemuling.specs.Promised.{BookShortenedIn};

use crate::told::{Told, trimmed_told};
use rules_types::answers::{Refusal, Trimmed};
use rules_types::terms::{Edition, Named};
use trimming::trim::trim;

// The last step of a proof, and those from which it descends.
pub fn jemuling_shorten_book_in(edition: u64, input: &[u8], proof: &[u8], target: &mut [u8]) -> Told
    ensures value { result ≡ trimmed_told (trim_in standard edition input.now proof.now target.old).trimmed }
    ensures target_after { target.new
        ≡ (trim_in standard edition input.now proof.now target.old).target }
    ensures book_shortened_in { BookShortenedIn standard edition input.now proof.now target.old result
        target.new }
{
    let named = Edition::named(edition);
    match named {
        Named::Unknown => trimmed_told(Trimmed::Refused(Refusal::Edition, 0)),
        Named::Known(e) => trimmed_told(trim(input, proof, target, e)),
    }
}
