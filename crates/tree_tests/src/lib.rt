//! Tests of the index, its histories, its runs and its lines, of sets and of keys that are texts,
//! through their public items: what no contract states, and one caller of each call that otherwise
//! only tests outside the gate make.
#![tactic(auto)]

#[cfg(test)]
mod asked;
#[cfg(test)]
mod callers;
#[cfg(test)]
mod copies;
#[cfg(test)]
mod cursor_texts;
#[cfg(test)]
mod histories;
#[cfg(test)]
mod index;
#[cfg(test)]
mod indexes;
#[cfg(test)]
mod keys;
#[cfg(test)]
mod lines;
#[cfg(test)]
mod look_ups;
#[cfg(test)]
mod numbers;
#[cfg(test)]
mod prefixes;
#[cfg(test)]
mod readers;
#[cfg(test)]
mod removals;
#[cfg(test)]
mod runs;
#[cfg(test)]
mod sets;
#[cfg(test)]
mod shapes;
#[cfg(test)]
mod tallies;
