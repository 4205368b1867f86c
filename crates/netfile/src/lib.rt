// A net file's run: the printout of its minimal cycles and of the answers to its questions, or its first fault.
#![tactic(auto)]

mod fault;
mod net;
mod order;
mod printing;
mod printout;
mod questions;
mod reader;
mod running;
mod sink;
mod standing;
mod values;

pub use fault::{FileFault, Position, RunFault};
pub use printout::write_fault;
pub use running::{read_sheet, run};
pub use standing::{StandingPlace, standing_net};
