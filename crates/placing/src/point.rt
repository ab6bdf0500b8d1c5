// A point of an elimination in machine words.
ghost use Rattle.std.specs.Prelude.{◌≡◌};
ghost use Rattle.placing.specs.Point.{is_running};

// Whether the elimination goes on, or what has ended it: "The first empty line, wide result or line too many".
#[derive(Clone, Copy)]
pub enum Progress {
    Running,
    Empty,
    Overflow,
    OutOfSteps,
}

// The elimination at a point: the steps held, and the pairs tried.
#[derive(Clone, Copy)]
pub struct Point {
    pub progress: Progress,
    pub steps: usize,
    pub pairs: u64,
}

pub fn is_running(progress: Progress) -> bool
    ensures { result ≡ is_running progress }
{
    match progress {
        Progress::Running => true,
        Progress::Empty => false,
        Progress::Overflow => false,
        Progress::OutOfSteps => false,
    }
}
