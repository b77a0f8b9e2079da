//! A log of texts in one file. Each text is there whole or not at all, whatever a crash leaves.
//!
//! The file is on a `Disk` of the toolchain's `sqlite_disk`, which is a model of a file and of what
//! a crash may leave of it. Damage is found before a byte of the file changes.
#![tactic(auto)]

mod error;
mod frame_file;
mod head;
mod inspect;
mod log;
mod make;
mod open;
mod spare;
mod synced;

pub use error::{LogError, OpenError};
pub use head::Head;
pub use inspect::{is_blank, text_in};
pub use log::Log;
pub use open::read_all;
pub use spare::{head_of, is_spare, retire};
