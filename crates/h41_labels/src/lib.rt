//! The label cache, which stores recent searches for labels with their answers.
#![tactic(auto)]

mod cache;
pub mod laws;
mod search;

pub use cache::LabelCache;
pub use search::{KeptAnswer, Search};
