//! Vectors of `images.tsv`, `strings.tsv`, `controls.tsv`, `beginnings.tsv`, `tokens.tsv` and
//! `aborts.tsv`.

use crate::vectors::chunks::Input;
use crate::vectors::error::{Result, ensure};
use crate::vectors::notation::{Outcome, bytes, push_outcome};
use crate::vectors::random::Random;
use crate::vectors::session::{Form, Owner, Session, check_decoder};
use icy_sixel::{SixelDecoder, SixelImage, sixel_decode, sixel_decode_from_dcs};
use std::alloc::Global;

/// Checks a vector of `images.tsv`.
pub fn write_image(alloc: Global, found: &mut String, settings: &str, text: &str) -> Result<()> {
    let input = Input::parse(alloc, settings, text)?;
    if let Form::Payload(_) = input.form {
        write_whole(alloc, found, &input)?;
    } else {
        input.decode(alloc, found)?;
    }
    match check_decoder(&input.start, &SixelDecoder::new()) {
        Ok(()) => check_calls(alloc, found, &input),
        Err(_) => Ok(()),
    }
}

/// Checks a payload or a whole DCS sequence, at once and in chunks, and the decoder after it.
pub fn write_whole(alloc: Global, found: &mut String, input: &Input) -> Result<()> {
    let (output, area) = input.check_whole(alloc, found)?;
    input.check_chunks(alloc, area, &output)?;
    let mut copy = output.after.clone()?;
    check_decoder(&copy, &output.after)?;
    copy.reset_palette();
    check_decoder(&copy, &input.start)
}

/// Checks the calls that make a decoder of their own.
fn check_calls(alloc: Global, expected: &str, input: &Input) -> Result<()> {
    let bytes = input.bytes.as_slice();
    if let Form::Payload(settings) = input.form {
        let outcome = SixelImage::decode_from_dcs(alloc, bytes, settings);
        check_outcome(alloc, expected, &outcome)?;
        let outcome = sixel_decode_from_dcs(alloc, bytes, settings);
        return check_outcome(alloc, expected, &outcome);
    }
    if let Ok(text) = str::from_utf8(bytes) {
        check_outcome(alloc, expected, &SixelImage::from_str(alloc, text))?;
    }
    check_outcome(alloc, expected, &SixelImage::decode(alloc, bytes))?;
    check_outcome(alloc, expected, &sixel_decode(alloc, bytes))
}

/// Fails if an outcome is not the expected one; an image is cloned first.
pub fn check_outcome(alloc: Global, expected: &str, outcome: &Outcome) -> Result<()> {
    let mut found = String::new(alloc);
    match outcome {
        Ok(image) => push_outcome(&mut found, &image.clone(alloc))?,
        Err(_) => push_outcome(&mut found, outcome)?,
    }
    ensure(found.as_str() == expected, "another call")
}

/// Checks a vector of `strings.tsv`.
pub fn write_string(alloc: Global, found: &mut String, text: &str) -> Result<()> {
    let input = Input::parse(alloc, "dcs", text)?;
    let (output, mut decoded) = (input.feed(alloc)?, String::new(alloc));
    let (decoder, area) = input.decode(alloc, &mut decoded)?;
    if !output.is_rejected() && !output.text.contains(" more\t") {
        ensure(output.text.ends_with(decoded.as_str()), "decode")?;
        check_decoder(&decoder, &output.after)?;
    }
    input.check_chunks(alloc, area, &output)?;
    input.check_pairs(alloc, &output)?;
    Ok(found.push_str(&output.text)?)
}

/// Checks a vector of `controls.tsv`: each ignored control at every place.
pub fn check_controls(alloc: Global, columns: [&str; 5]) -> Result<()> {
    let [settings, before, inside, after, image] = columns;
    let (before, after) = (bytes(alloc, before)?, bytes(alloc, after)?);
    let mut input = Input::parse(alloc, settings, inside)?;
    let inside = bytes(alloc, inside)?;
    for place in 0..=inside.len() {
        let (left, right) = inside.split_at(place);
        for control in 0..=0x7f {
            if matches!(control, 0..=0x17 | 0x19 | 0x1c..=0x1f | 0x7f) {
                input.bytes = [&before, left, &[control], right, &after].concat(alloc)?;
                let mut found = String::new(alloc);
                input.check_whole(alloc, &mut found)?;
                ensure(found.trim_start() == image, "control")?;
            }
        }
    }
    Ok(())
}

/// Checks a vector of `beginnings.tsv`: each beginning with each byte after it.
pub fn check_beginnings(alloc: Global, [settings, text, after]: [&str; 3]) -> Result<()> {
    let (text, after) = (bytes(alloc, text)?, bytes(alloc, after)?);
    let mut input = Input::parse(alloc, settings, "")?;
    for place in 0..=text.len() {
        let (beginning, _) = text.split_at(place);
        for byte in 0..=0xff {
            input.bytes = [beginning, &[byte], &after].concat(alloc)?;
            input.check_whole(alloc, &mut String::new(alloc))?;
        }
    }
    Ok(())
}

/// Checks a vector of `tokens.tsv`: payloads of these tokens in random order, on both canvases.
pub fn check_tokens(alloc: Global, [settings, count, text]: [&str; 3]) -> Result<()> {
    let tokens: Vec<&str> = text.split(' ').collect(alloc)?;
    let mut input = Input::parse(alloc, settings, "")?;
    let mut random = Random::new(1);
    for _ in 0..count.parse::<usize>()? {
        input.bytes = Vec::new(alloc);
        for _ in 0..random.below(61) {
            let token = tokens.get(random.below(tokens.len())).unwrap_or(&"");
            input.bytes.extend_from_slice(token.as_bytes())?;
        }
        input.check_whole(alloc, &mut String::new(alloc))?;
    }
    Ok(())
}

/// Checks a vector of `aborts.tsv`: aborted images, and one that defines every register.
pub fn check_aborts(alloc: Global, [settings, count, text]: [&str; 3]) -> Result<()> {
    let (input, text) = (Input::parse(alloc, settings, text)?, bytes(alloc, text)?);
    let count = count.parse::<usize>()?;
    for is_receiver in [false, true] {
        check_owner(alloc, is_receiver, &input, &text, count)?;
    }
    let (after, _) = input.decode(alloc, &mut String::new(alloc))?;
    for register in 0..=255 {
        let is_defined = after.register(register) != input.start.register(register);
        ensure(is_defined, "register that is not defined")?;
    }
    Ok(())
}

/// Aborts images of an owner.
fn check_owner(
    alloc: Global,
    is_receiver: bool,
    input: &Input,
    text: &[u8],
    count: usize,
) -> Result<()> {
    let mut owner = Owner::new(&input.start, is_receiver)?;
    abort_images(alloc, &mut owner, input, text, count)
}

/// Aborts images of one owner, whose decoder must not change.
fn abort_images(
    alloc: Global,
    owner: &mut Owner,
    input: &Input,
    text: &[u8],
    count: usize,
) -> Result<()> {
    for _ in 0..count {
        abort(owner.begin(alloc, input.form)?, text)?;
    }
    check_decoder(owner.decoder(), &input.start)
}

/// Feeds a session and aborts it.
fn abort(mut session: Session<'_>, text: &[u8]) -> Result<()> {
    let fed = session.feed(text);
    session.abort();
    fed?;
    Ok(())
}
