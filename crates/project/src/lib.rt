// What the planning core knows of a project: its records, its limits and rules, and the refusals of every call.
#![tactic(auto)]

pub mod refusal;
pub mod rules;
pub mod tables;
