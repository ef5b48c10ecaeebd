//! The program `sixel`: decodes and encodes images of standard input and of files.
#![tactic(auto, using(std::proofs::lemmas::Bool::Decides::nat_tests))]

ghost use Rattle.std.specs.Prelude.{None};

mod draw;
mod engine;
mod fault;
mod image_output;
mod netpbm;
mod notice;
mod number;
mod picture;
mod read;
mod response;
mod sequences;
#[cfg(test)]
mod tests;
mod words;
mod work;
mod write;

use draw::files::{Host, draw_named};
use draw::option_fault::OptionFault;
use draw::options::{Drawing, read_drawing};
use fault::{Fault, PictureFault};
use notice::Notice;
use picture::after_draw;
use response::{Response, respond, response_of};
use std::fmt::Display;
use std::process::ExitCode;
use std::{env, fs, io};
use write::write_all;

fn main(rt: HostRuntime) -> io::Result<ExitCode> {
    let status = match arguments(&rt) {
        Ok(words) => run(&rt, &words)?,
        Err(fault) => report(&rt, &[], &Response::Failed(PictureFault::Shared(fault)))?,
    };
    Ok(ExitCode::from(status))
}

/// The arguments after the program's own name.
fn arguments(rt: &HostRuntime) -> Result<Vec<String>, Fault> {
    let Ok(mut arguments) = env::args(rt) else {
        return Err(Fault::Input);
    };
    let _program = arguments.next();
    let mut words = Vec::new(rt.alloc());
    for word in arguments {
        if words.push(word).is_err() {
            return Err(Fault::Input);
        }
    }
    Ok(words)
}

/// Writes the notice that the arguments ask for, or does their work. Returns the exit status.
fn run(rt: &HostRuntime, words: &[String]) -> io::Result<u8> {
    if let Some(notice) = Notice::read(words) {
        let written = write_all(&mut rt.stdout(), notice.text().as_bytes());
        return report(
            rt,
            words,
            &response_of(written.map_err(PictureFault::Shared)),
        );
    }
    let Some(Ok(drawing)) = read_drawing_of(words) else {
        return report_work(rt, words, &[]);
    };
    let host = Terminal { rt };
    if !drawing.files.is_empty() {
        return draw_named(rt.alloc(), &host, &drawing, &mut rt.stdout());
    }
    let Some(path) = drawing.path else {
        return report_work(rt, words, &[]);
    };
    match host.read(path)? {
        Some(palette) => report_work(rt, words, &palette),
        None => Ok(1),
    }
}

/// What the arguments after `draw` state, if it is the first one.
fn read_drawing_of(words: &[String]) -> Option<Result<Drawing<'_>, OptionFault<'_>>> {
    Some(read_drawing(after_draw(words)?))
}

/// Does the work of the arguments on standard input. Returns the exit status.
fn report_work(rt: &HostRuntime, words: &[String], palette: &[u8]) -> io::Result<u8> {
    let (mut input, mut output) = (rt.stdin(), rt.stdout());
    let response = respond(rt.alloc(), words, palette, &mut input, &mut output);
    report(rt, words, &response)
}

/// The files of the file system, whose content is not known to proofs, and standard error.
#[derive(Clone, Copy)]
struct Terminal<'a> {
    rt: &'a HostRuntime,
}

impl<'a> Host for Terminal<'a> {
    ghost content = { λ _ _. None };

    fn read(&self, name: &str) -> io::Result<Option<Vec<u8>>> {
        match fs::read(self.rt, name) {
            Ok(file) => Ok(Some(file)),
            Err(error) => {
                self.report(name, &error)?;
                Ok(None)
            }
        }
    }

    fn report<E: Display>(&self, name: &str, error: &E) -> io::Result<()> {
        eprintln!(self.rt; "{name}: {error}")
    }
}

/// Writes a line to standard error if something is wrong. Returns the exit status.
fn report(rt: &impl Eprint, words: &[String], response: &Response) -> io::Result<u8> {
    match response {
        Response::Done => {}
        Response::Usage => match read_drawing_of(words) {
            Some(Err(fault)) => rt.eprintln(fault)?,
            _ => rt.eprintln("usage")?,
        },
        Response::Failed(fault) => rt.eprintln(fault)?,
    }
    Ok(response.status())
}
