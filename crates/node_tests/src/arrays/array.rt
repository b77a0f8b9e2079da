//! Calls of an array through its public items.
pub(crate) mod calls;
mod found;
mod questions;
