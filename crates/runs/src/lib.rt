#![tactic(auto)]

pub mod replay;
