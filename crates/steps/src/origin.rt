// A step in machine words: its origin, and its line.
ghost use Rattle.std.specs.Prelude.{◌≡◌};
ghost use Rattle.steps.specs.Origin.{loaded_by};

use lines::line::Line;

// "how (0 loaded, 1 by a figure, 2 by a mark)", which variable, and the numbers of the two parents, or of the clause and the part.
#[derive(Clone, Copy)]
pub struct Origin {
    pub how: u8,
    pub which: u8,
    pub first: u64,
    pub second: u64,
}

#[derive(Clone, Copy)]
pub struct Step {
    pub origin: Origin,
    pub line: Line,
}

impl Origin {
    pub fn loaded(clause: u64, part: u64) -> Origin
        ensures { result ≡ loaded_by clause part }
    {
        Origin {
            how: 0,
            which: 0,
            first: clause,
            second: part,
        }
    }
}
