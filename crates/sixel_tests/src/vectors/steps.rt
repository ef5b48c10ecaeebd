//! Vectors of `steps.tsv`: lists of steps on one decoder.

use crate::vectors::error::{Result, VectorError, ensure};
use crate::vectors::notation::{bytes, color, numbers, push_error, push_fed, push_image};
use crate::vectors::session::{Form, check_decoder, clip, settings};
use icy_sixel::SixelDecoder;
use icy_sixel::script::{End, Outcome, Step, run};
use std::alloc::Global;

/// The first columns of a step, and what they write.
#[derive(Drop)]
struct Line<'a> {
    columns: [&'a str; 3],
    form: Form,
    numbers: (usize, usize),
    bytes: Vec<u8>,
    lengths: Vec<usize>,
}

/// Checks a vector with its own chunks, and with others.
pub fn write(alloc: Global, found: &mut String, columns: &[&str]) -> Result<()> {
    let (registers, steps) = columns
        .split_last()
        .ok_or(VectorError::Check("no registers"))?;
    let mut lines = Vec::new(alloc);
    for step in steps.chunks(5) {
        lines.push(Line::parse(alloc, step.try_into()?)?)?;
    }
    let decoder = write_run(alloc, found, &lines, None)?;
    for lengths in [[].as_slice(), &[0], &[usize::MAX], &[1; 64]] {
        let mut other = String::new(alloc);
        let again = write_run(alloc, &mut other, &lines, Some(lengths))?;
        ensure(other == *found, "chunks")?;
        check_decoder(&again, &decoder)?;
    }
    for word in registers.split(' ') {
        let (register, value) = word
            .split_once('=')
            .ok_or(VectorError::Check("no register"))?;
        let is_same = decoder.register(register.parse::<u8>()?) == color(value)?;
        ensure(is_same, "register")?;
    }
    Ok(write!(found, "\t{registers}")?)
}

/// Runs the steps with these lengths of chunks, writes their columns and returns the decoder.
fn write_run<'a>(
    alloc: Global,
    found: &mut String,
    lines: &'a [Line<'_>],
    lengths: Option<&'a [usize]>,
) -> Result<SixelDecoder> {
    let (mut steps, mut decoder) = (Vec::new(alloc), SixelDecoder::new());
    for line in lines {
        let step = line.step(lengths.unwrap_or(line.lengths.as_slice()));
        steps.extend_from_slice(&[step])?;
    }
    let outcomes = run(alloc, &mut decoder, &steps)?;
    for (line, outcome) in lines.iter().zip(outcomes.iter()) {
        let [step, text, end] = line.columns;
        write!(found, "\t{step}\t{text}\t{end}")?;
        push_outcome(found, outcome)?;
    }
    Ok(decoder)
}

impl<'a> Line<'a> {
    /// The line that five columns write.
    fn parse(alloc: Global, [step, text, end, _, _]: [&'a str; 5]) -> Result<Self> {
        let (_, lengths) = end.split_once(' ').unwrap_or((end, "none"));
        let (bytes, lengths) = (bytes(alloc, text)?, numbers(alloc, lengths)?);
        let (form, numbers) = match step.split_once(' ').unwrap_or((step, "")) {
            ("reset" | "crop", _) => (Form::Dcs, (0, 0)),
            ("limit", pixels) => (Form::Dcs, (pixels.parse::<usize>()?, 0)),
            ("clip", sides) => (Form::Dcs, clip(sides)?),
            _ => (settings(step)?.0, (0, 0)),
        };
        Ok(Self {
            columns: [step, text, end],
            form,
            numbers,
            bytes,
            lengths,
        })
    }

    /// The step, with these lengths of chunks.
    fn step<'b>(&'b self, cuts: &'b [usize]) -> Step<'b> {
        let ([step, _, end], bytes) = (self.columns, self.bytes.as_slice());
        let is_aborted = end.starts_with("abort");
        let ending = if is_aborted { End::Abort } else { End::Finish };
        match step.split_once(' ').unwrap_or((step, "")) {
            ("reset", _) => return Step::Reset,
            ("crop", on) => return Step::RasterCrop(on == "on"),
            ("limit", _) => return Step::PixelLimit(self.numbers.0),
            ("clip", _) => {
                let (width, height) = self.numbers;
                return Step::Clip { width, height };
            }
            _ => {}
        }
        let is_once = end == "once";
        match self.form {
            Form::Payload(settings) if is_once => Step::DecodeFromDcs(bytes, settings),
            Form::Dcs if is_once => Step::Decode(bytes),
            Form::Payload(settings) => Step::Frame {
                settings,
                bytes,
                cuts,
                ending,
            },
            Form::Dcs => Step::Dcs {
                bytes,
                cuts,
                ending,
            },
        }
    }
}

/// Writes the columns of what comes of a step.
fn push_outcome(found: &mut String, outcome: &Outcome) -> Result<()> {
    match outcome {
        Outcome::Aborted { consumed, status }
        | Outcome::Finished {
            consumed,
            status,
            ..
        } => push_fed(found, *consumed, *status)?,
        _ => found.push('\t')?,
    }
    match outcome {
        Outcome::Reset | Outcome::Changed => Ok(found.push_str("\tdone")?),
        Outcome::Aborted { .. } => Ok(found.push_str("\taborted")?),
        Outcome::Failed(error) => push_error(found, error),
        Outcome::Decoded(image) | Outcome::Finished { image, .. } => push_image(found, image),
    }
}
