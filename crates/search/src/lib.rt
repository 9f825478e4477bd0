// One search, under any measure: offers at some junctions, and what walks that go on from them come to.
#![tactic(auto)]

mod scope;
mod sweeps;

pub use scope::Scope;
pub use sweeps::search;
