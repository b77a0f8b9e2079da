//! Tests of slots and arrays.
#![tactic(auto)]

#[cfg(test)]
mod arrays;
