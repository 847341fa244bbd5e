#![tactic(auto)]

pub mod additions;
pub mod answers;
pub mod finals;
pub mod opening;
pub mod passes;
pub mod questions;
pub mod readers;
pub mod record;
pub mod refusals;
pub mod replaying;
pub mod settling;
pub mod stages;
pub mod staging;
