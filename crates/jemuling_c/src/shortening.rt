// Shortening, for C.
ghost use Rattle.std.specs.Prelude.{◌≡◌};
ghost use Rattle.rules_types.specs.Limits.{standard};
ghost use Rattle.rules.specs.Trim.{trim_in};
ghost use Rattle.jemuling.specs.Told.{trimmed_told};
ghost use Rattle.jemuling.specs.Promised.{BookShortenedIn};

use jemuling::shortening;
use jemuling::told::Told;

// The last step of a proof, and those from which it descends.
#[unsafe(no_mangle)]
pub extern "C" fn jemuling_shorten_book_in(
    edition: u64,
    input: &[u8],
    proof: &[u8],
    target: &mut [u8],
) -> Told
    ensures value { result ≡ trimmed_told (trim_in standard edition input.now proof.now target.old).trimmed }
    ensures target_after { target.new
        ≡ (trim_in standard edition input.now proof.now target.old).target }
    ensures book_shortened_in { BookShortenedIn standard edition input.now proof.now target.old result
        target.new }
{
    shortening::jemuling_shorten_book_in(edition, input, proof, target)
}
