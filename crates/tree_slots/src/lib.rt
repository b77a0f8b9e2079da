//! Slots that own a value or nothing, and take no more memory than the value.
#![tactic(auto)]

pub mod row;
pub mod slot;
