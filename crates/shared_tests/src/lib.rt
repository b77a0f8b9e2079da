//! Tests of the shared index: its calls by many threads, and its end; of workers at a gate; and of
//! a schedule of several workers' commands.
#![tactic(auto)]

pub mod closed;
#[cfg(test)]
mod closing;
#[cfg(test)]
mod gates;
#[cfg(test)]
mod numbers;
#[cfg(test)]
mod races;
#[cfg(test)]
mod replay;
#[cfg(test)]
mod scenario;
#[cfg(test)]
mod schedules;
#[cfg(test)]
mod threads;
