// The library's calls: byte slices and numbers in, numbers out. The crate jemuling_c hands them to C, and include/jemuling.h declares them.
#![tactic(auto)]

pub mod calls;
pub mod calls_in;
pub mod carrying;
pub mod in_edition;
pub mod on_terms;
pub mod shortening;
pub mod told;
