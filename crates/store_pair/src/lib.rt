//! A log of texts in two files, of which the one with the later generation counts. So a log can be
//! written again from one text, and a crash leaves the old one or the new.
#![tactic(auto)]

mod files;
mod inspect;
mod pair;

pub use files::Files;
pub use pair::LogPair;
