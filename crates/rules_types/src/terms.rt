// The terms on which a problem is solved and a proof or a model checked, as one value.
ghost use Rattle.std.specs.Prelude.{◌≡◌};
ghost use Rattle.rules_types.specs.Terms.{standard, preview, edition_named};

use crate::limits::Limits;

// Document 01's edition, and 02's second (v), in which no rational variable is below 0.
#[derive(Clone, Copy)]
pub enum Edition {
    First,
    Second,
}

// What a caller's number names: an edition, or none.
#[derive(Clone, Copy)]
pub enum Named {
    Known(Edition),
    Unknown,
}

impl Edition {
    // "The caller names edition 1 or 2."
    #[tactic(auto, unfolding(crate::specs::Terms::edition_named))]
    pub fn named(number: u64) -> Named
        ensures { result ≡ edition_named number }
    {
        if number == 1 {
            return Named::Known(Edition::First);
        }
        if number == 2 {
            return Named::Known(Edition::Second);
        }
        Named::Unknown
    }
}

// The number of lines, and the edition.
#[derive(Clone, Copy)]
pub struct Terms {
    pub limits: Limits,
    pub edition: Edition,
}

impl Terms {
    // Of a caller who names neither.
    pub fn standard() -> Terms
        ensures { result ≡ standard }
    {
        Terms {
            limits: Limits::standard(),
            edition: Edition::First,
        }
    }

    // Of a preview.
    pub fn preview() -> Terms
        ensures { result ≡ preview }
    {
        Terms {
            limits: Limits::preview(),
            edition: Edition::First,
        }
    }
}
