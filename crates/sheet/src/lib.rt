// Sheets: places are offered to an open sheet, which keeps the minimal cycles of those that it accepted; once closed, it is listed, compared and asked for certificates.
#![tactic(auto)]

mod answer;
mod certify;
mod closed;
mod comparing;
mod fault;
mod open;
mod sheets;
mod steps;

pub use answer::Answer;
pub use comparing::{Comparison, compare};
pub use fault::SheetFault;
pub use sheets::{ClosedSheet, OpenSheet};
pub use steps::StepCount;
