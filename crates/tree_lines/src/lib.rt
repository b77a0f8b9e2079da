//! Requests to an ordered index as lines of text: their grammar, the line that is being read, texts
//! that are written whole or in part, and an engine that answers requests over any reader and
//! writer.
#![tactic(auto)]

mod answers;
mod begun_line;
mod bounds;
mod lines;
mod numbers;
mod pairs;
mod requests;
mod short_text;
mod words;
mod writing;

pub use answers::{Answer, write_answer};
pub use begun_line::BegunLine;
pub use lines::{ToolFault, run_lines};
pub use numbers::number_of;
pub use requests::{Request, request_of};
pub use writing::{WriteFailed, write_number, write_whole};
