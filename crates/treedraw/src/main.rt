//! Reads the lines of `treetool` from standard input, and prints a picture of the tree that they
//! leave, as DOT or as SVG.
#![tactic(auto)]

mod dot;
mod draw;
mod language;
mod levels;
mod options;
mod places;
mod reading;
mod rows;
mod shape;
mod svg;
mod text;
mod tool;

use std::process::ExitCode;
use std::rt::Env;
use std::{env, io};

fn main(rt: HostRuntime) -> ExitCode {
    let Ok(arguments) = arguments(&rt) else {
        return ExitCode::from(2);
    };
    let (mut input, mut output, mut errors) = (rt.stdin(), rt.stdout(), rt.stderr());
    ExitCode::from(tool::tool(rt.alloc(), &arguments, &mut input, &mut output, &mut errors))
}

// Returns the arguments after the program's name.
fn arguments(rt: &(impl Env + AllocGlobal)) -> io::Result<Vec<String>> {
    let mut words = env::args(rt)?;
    let _ = words.next();
    Ok(words.collect(rt.alloc())?)
}
