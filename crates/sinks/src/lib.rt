// Sinks take clauses in batches: a batch is kept whole or struck whole.
#![tactic(auto)]

pub mod batch;
pub mod clause;
pub mod counter;
pub mod judge;
pub mod ledger;
pub mod sink;
