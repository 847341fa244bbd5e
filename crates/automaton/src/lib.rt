#![tactic(auto)]

pub mod edges;
pub mod reading;
pub mod rules;
pub mod saturation;
pub mod sizes;
