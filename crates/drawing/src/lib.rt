// The network as it is edited: a drawing at rest, the tables that each call is lent, the edits, and every refusal.
#![tactic(auto)]

mod borders;
mod edits;
mod marks;
mod refusal;
mod rest;
mod tables;
mod used;

pub use edits::{MOST_DISTRICTS, MOST_JUNCTIONS, MOST_ROADS};
pub use marks::Marks;
pub use refusal::{Refusal, Table};
pub use rest::Rest;
pub use tables::{Junction, Mark, Road};
pub use used::Used;
