// The limits of document 01, named once: the reader, the elimination and the checker cite them here.
ghost use Rattle.std.specs.Prelude.{◌≡◌};
ghost use Rattle.rules_types.specs.Limits.{problem_bytes, step_bytes, model_bytes, booleans, rationals, clauses, literals};
ghost use Rattle.rules_types.specs.Limits.{comparisons, splits, all_booleans, amount, steps, preview_steps, standard, preview};
ghost use Rattle.rules_types.specs.Limits.{proof_bytes};

// What may differ from caller to caller: the most steps that a proof holds.
#[derive(Clone, Copy)]
pub struct Limits {
    pub steps: u32,
}

impl Limits {
    // Bytes of a problem, of a step, of a model.
    pub const PROBLEM_BYTES: usize = 32768;

    pub const STEP_BYTES: usize = 64;

    pub const MODEL_BYTES: usize = 64;
    // Boolean variables, rational variables and clauses of a problem.
    pub const BOOLEANS: usize = 16;

    pub const RATIONALS: usize = 8;

    pub const CLAUSES: usize = 256;
    // Literals and comparisons of a clause; split variables of a problem.
    pub const LITERALS: usize = 32;

    pub const COMPARISONS: usize = 8;

    pub const SPLITS: usize = 16;
    // Boolean variables of a line, the split variables among them.
    pub const ALL_BOOLEANS: usize = 32;
    // The size of an amount; the steps of a proof, and of a preview's.
    pub const AMOUNT: u64 = 1000000000;

    pub const STEPS: u32 = 1024;

    pub const PREVIEW_STEPS: u32 = 256;

    // The limits of a caller who lends the whole proof.
    pub fn standard() -> Limits
        ensures { result ≡ standard }
    {
        Limits {
            steps: Limits::STEPS,
        }
    }

    // The limits of a caller who lends a preview.
    pub fn preview() -> Limits
        ensures { result ≡ preview }
    {
        Limits {
            steps: Limits::PREVIEW_STEPS,
        }
    }

    // The bytes that a lent proof must have.
    pub fn proof_bytes(self) -> usize
        ensures { result ≡ proof_bytes self }
    {
        let steps = self.steps as usize;
        steps * Limits::STEP_BYTES
    }

    // The constants are those of the definitions: proved here once, so that no other proof compares the numbers.
    pub fn stated() -> bool
        ensures bytes { (Self.PROBLEM_BYTES ≡ problem_bytes) × (Self.STEP_BYTES ≡ step_bytes) }
        ensures model { Self.MODEL_BYTES ≡ model_bytes }
        ensures problem { (Self.BOOLEANS ≡ booleans) × (Self.RATIONALS ≡ rationals) }
        ensures clause { (Self.CLAUSES ≡ clauses) × (Self.LITERALS ≡ literals) }
        ensures split { (Self.COMPARISONS ≡ comparisons) × (Self.SPLITS ≡ splits) }
        ensures line { Self.ALL_BOOLEANS ≡ all_booleans }
        ensures elimination { (Self.AMOUNT ≡ amount) × (Self.STEPS ≡ steps) }
        ensures preview { Self.PREVIEW_STEPS ≡ preview_steps }
    {
        true
    }
}
