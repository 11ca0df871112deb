//! Functions in microcode that are proved for every state.
#![tactic(auto)]

pub mod functions;
