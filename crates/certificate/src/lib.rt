// Certificates: a multiple of a question as a sum of the rows that a ledger holds, made by a walk over the rows.
#![tactic(auto)]

mod certificate;
mod extending;
mod least;
mod numbers;
mod ratio;
mod reading;
mod round;
mod walking;

pub use certificate::Certificate;
pub use walking::walk;
