//! The test vectors of the library: the lines of the files in `data`, whose README defines them.

mod calls;
mod canvas;
mod chunks;
mod decoder;
mod encoder;
mod error;
mod notation;
mod random;
mod session;
mod settings;
mod steps;

use error::{Result, VectorError, ensure};
use std::alloc::Global;
use std::process::ExitCode;
use std::{fs, io};

/// The names of the files, in the order in which they are checked.
const FILES: &str = "images strings sessions steps receivers controls beginnings tokens aborts \
    writes texts trips palettes witnesses sizes settings registers rows spans";

/// Checks the vectors of a folder, prints a line a file, and fails if a vector does.
pub fn check(rt: &HostRuntime, folder: &str) -> io::Result<ExitCode> {
    let mut status = ExitCode::SUCCESS;
    for name in FILES.split(' ') {
        if !check_file(rt, folder, name)? {
            status = ExitCode::FAILURE;
        }
    }
    Ok(status)
}

/// Checks the vectors of a file, prints the results and returns whether all passed.
fn check_file(rt: &HostRuntime, folder: &str, name: &str) -> io::Result<bool> {
    let text = fs::read_to_string(rt, format!(in rt.alloc(); "{folder}/{name}.tsv")?)?;
    check_lines(rt, &mut String::new(rt.alloc()), name, &text)
}

/// Checks the vectors of these lines, with a buffer for the columns that their calls write.
fn check_lines(rt: &HostRuntime, found: &mut String, name: &str, text: &str) -> io::Result<bool> {
    let (mut passed, mut have_passed) = (0_u64, true);
    for (index, line) in text.lines().enumerate() {
        if line.is_empty() || line.starts_with('#') {
            continue;
        }
        found.clear();
        match check_line(rt.alloc(), found, name, line) {
            Ok(()) => passed = passed.saturating_add(1),
            Err(error) => {
                let number = index.saturating_add(1);
                println!(rt; "{name}.tsv:{number}: failed: {error}, found{found}")?;
                have_passed = false;
            }
        }
    }
    println!(rt; "{name}.tsv: {passed} vectors passed")?;
    Ok(have_passed)
}

/// Checks one vector: its calls write its last columns.
fn check_line(alloc: Global, found: &mut String, name: &str, line: &str) -> Result<()> {
    let columns: Vec<&str> = line.split('\t').collect(alloc)?;
    write_results(alloc, found, name, &columns)?;
    let line = format!(in alloc; "\t{line}")?;
    ensure(line.ends_with(found.as_str()), "last columns")
}

/// Makes the calls of a vector, and writes the last columns or checks them.
fn write_results(alloc: Global, found: &mut String, name: &str, line: &[&str]) -> Result<()> {
    match (name, line) {
        ("images", [settings, text, _]) => decoder::write_image(alloc, found, settings, text),
        ("strings", [text, _, _]) => decoder::write_string(alloc, found, text),
        ("sessions", columns) => calls::write_session(alloc, found, columns),
        ("steps", columns) => steps::write(alloc, found, columns),
        ("receivers", columns) => calls::write_receiver(alloc, found, columns),
        ("controls", columns) => decoder::check_controls(alloc, columns.try_into()?),
        ("beginnings", columns) => decoder::check_beginnings(alloc, columns.try_into()?),
        ("tokens", columns) => decoder::check_tokens(alloc, columns.try_into()?),
        ("aborts", columns) => decoder::check_aborts(alloc, columns.try_into()?),
        ("writes", columns) => canvas::check_work(alloc, columns.try_into()?),
        ("texts", columns) => encoder::check_text(alloc, columns.try_into()?),
        ("trips", [colors, image, _]) => encoder::write_trip(alloc, found, colors, image),
        ("palettes", columns) => encoder::check_palette(alloc, columns.try_into()?),
        ("witnesses", columns) => encoder::check_witnesses(alloc, columns.try_into()?),
        ("sizes", columns) => encoder::write_size(alloc, found, columns.try_into()?),
        ("settings", [setting, ..]) => settings::write_setting(found, setting),
        ("registers", [register, _]) => settings::write_register(found, register),
        ("rows", columns) => canvas::write_row(alloc, found, columns),
        ("spans", columns) => canvas::check_spans(alloc, columns.try_into()?),
        _ => return Err(VectorError::Check("no such vector")),
    }
}
