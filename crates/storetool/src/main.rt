//! Answers requests to an ordered index that a file keeps, one a line, and does what else such a
//! file is for: lists it, tests it, fills it.
#![tactic(auto)]

mod dump;
mod failure;
mod image;
mod limited;
mod load;
mod opening;
mod place;
mod serve;
mod session;
mod stat;
mod task;
mod tool;
mod unsynced;
mod verify;

use crate::failure::Failure;
use std::process::ExitCode;
use std::rt::Env;
use std::{env, io};

fn main(rt: HostRuntime) -> ExitCode {
    let status = match words(&rt) {
        Ok(words) => tool::tool(&rt, &words),
        Err(error) if error.kind() == io::ErrorKind::OutOfMemory => tool::tell(
            &rt,
            "",
            Failure::NoMemory,
        ),
        // A word that isn't UTF-8 is a wrong word.
        Err(_) => tool::tool(&rt, &[]),
    };
    ExitCode::from(status)
}

// Returns the words behind the program's name.
fn words(rt: &(impl Env + AllocGlobal)) -> io::Result<Vec<String>> {
    let mut words = env::args(rt)?;
    let _ = words.next();
    Ok(words.collect(rt.alloc())?)
}
