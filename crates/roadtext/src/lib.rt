// Road text: networks in the form of the Ninth DIMACS Challenge.
#![tactic(auto)]

mod answer;
mod asks;
mod checking;
mod draw;
mod fault;
mod fields;
mod line;
mod lines;
mod outcome;
mod parts;
mod reading;
mod steps;
mod theorems;
mod walk;

pub use answer::answer_line;
pub use checking::{MOST_BYTES, check};
pub use fault::{Cause, Fault};
pub use outcome::{Reading, Unread};
pub use parts::{Arc, Ask, Move, Room};
pub use reading::read;
pub use theorems::{fault_is_the_first, written_networks_read_back};
