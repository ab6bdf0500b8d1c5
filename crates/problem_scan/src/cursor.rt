// What reading comes to.
use rules_types::answers::Refusal;

// Of a part that is passed over: the place of the next byte, or a fault with its place.
#[derive(Clone, Copy)]
pub enum Cursor {
    Next(usize),
    Fault(Refusal, usize),
}

// b, r and n of a problem: how many Boolean variables, rational variables and clauses it has.
#[derive(Clone, Copy)]
pub struct Sizes {
    pub booleans: u8,
    pub rationals: u8,
    pub clauses: u64,
}

// Of a whole problem: its sizes, or a fault with its place.
#[derive(Clone, Copy)]
pub enum Scan {
    Sound(Sizes),
    Fault(Refusal, usize),
}
