// One place more: from the minimal cycles of a net's places to those with another place.
#![tactic(auto)]

mod build;
mod combine;
mod divide;
mod fault;
mod first;
mod held;
mod next;
mod order;
mod pairs;
mod place;
mod reading;
mod survey;
mod third;

pub use fault::{PlaceFault, StepFault};
pub use first::first_rows;
pub use next::next_rows;
pub use place::Place;
