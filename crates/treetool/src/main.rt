//! Reads requests to an ordered index from standard input, one a line, and writes an answer line to
//! each; or lets threads fill a shared index.
#![tactic(auto)]

mod storm;
#[cfg(test)]
mod storm_tests;
mod task;
#[cfg(test)]
mod tests;
mod tool;

use std::process::ExitCode;
use std::rt::Env;
use std::{env, io};

fn main(rt: HostRuntime) -> ExitCode {
    let Ok(arguments) = arguments(&rt) else {
        return ExitCode::from(2);
    };
    let (input, output, errors) = (rt.stdin(), rt.stdout(), rt.stderr());
    ExitCode::from(tool::tool(&rt, rt.alloc(), &arguments, input, output, errors))
}

// Returns the arguments after the program's name.
fn arguments(rt: &(impl Env + AllocGlobal)) -> io::Result<Vec<String>> {
    let mut words = env::args(rt)?;
    let _ = words.next();
    Ok(words.collect(rt.alloc())?)
}
