// Sinks that spell their clauses in memory of their own.
#![tactic(auto)]

pub mod cells;
pub mod spelling;
pub mod store;
pub mod text;
