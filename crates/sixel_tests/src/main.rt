//! Tests of the library that need a program.
//!
//! `sixel_tests vectors FOLDER` checks the test vectors of a folder, or of the one it runs in.
//! `sixel_tests allocations` makes calls whose allocations a test lets fail.
#![tactic(auto)]

mod allocations;
mod vectors;

use std::process::ExitCode;
use std::{env, io};

fn main(rt: HostRuntime) -> io::Result<ExitCode> {
    let mut words = env::args(&rt)?;
    let (_program, word, folder) = (words.next(), words.next(), words.next());
    match word.as_deref() {
        Some("vectors") => vectors::check(&rt, folder.as_deref().unwrap_or(".")),
        Some("allocations") => allocations::make_calls(&rt),
        _ => {
            rt.eprintln("usage: sixel_tests vectors [FOLDER] | allocations")?;
            Ok(ExitCode::from(2))
        }
    }
}
