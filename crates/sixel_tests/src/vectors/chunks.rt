//! Bytes that are decoded at once and in chunks, which never change what comes of them.

use crate::vectors::error::{Result, ensure};
use crate::vectors::notation::{bytes, push_error, push_fed, push_outcome, word};
use crate::vectors::random::Random;
use crate::vectors::session::{Form, Owner, Session, check_decoder, settings};
use icy_sixel::receiver::Received;
use icy_sixel::script::Status;
use icy_sixel::{SixelDcsFeedStatus, SixelDecoder, SixelError};
use std::alloc::Global;

/// Bytes, what they are, and the decoder that decodes them.
#[derive(Drop)]
pub struct Input {
    pub form: Form,
    pub start: SixelDecoder,
    pub bytes: Vec<u8>,
}

/// What comes of a session, whatever the chunks are.
#[derive(Drop)]
pub struct Output {
    /// The bytes before a failed feed, or those that all feeds consume.
    count: usize,
    /// The drawn height after all feeds.
    drawn_height: usize,
    /// The column of a feed, for all of them together, and that of the image or error.
    pub text: String,
    pub after: SixelDecoder,
}

impl Input {
    /// The input that two columns write.
    pub fn parse(alloc: Global, start: &str, text: &str) -> Result<Self> {
        let ((form, start), bytes) = (settings(start)?, bytes(alloc, text)?);
        Ok(Self { form, start, bytes })
    }

    /// Decodes at once, writes the outcome and returns the decoder and the image's area.
    pub fn decode(&self, alloc: Global, found: &mut String) -> Result<(SixelDecoder, usize)> {
        let mut decoder = self.start.clone()?;
        let outcome = match self.form {
            Form::Payload(settings) => decoder.decode_from_dcs(alloc, &self.bytes, settings),
            Form::Dcs => decoder.decode(alloc, &self.bytes),
        };
        push_outcome(found, &outcome)?;
        let area = outcome.map_or(0, |image| image.width.saturating_mul(image.height));
        Ok((decoder, area))
    }

    /// Feeds single bytes.
    pub fn feed(&self, alloc: Global) -> Result<Output> {
        let lengths = vec![in alloc; 1; self.bytes.len()]?;
        let owner = Owner::new(&self.start, false)?;
        let output = self.play(alloc, owner, &lengths, usize::MAX)?;
        self.check(alloc, &lengths, &output)?;
        Ok(output)
    }

    /// Checks a payload or a whole DCS sequence, at once and in single bytes.
    pub fn check_whole(&self, alloc: Global, found: &mut String) -> Result<(Output, usize)> {
        let ((decoder, area), output) = (self.decode(alloc, found)?, self.feed(alloc)?);
        let is_end = |byte: &u8| matches!(*byte, 0x18 | 0x1a | 0x1b | 0x80..=0x9f);
        let (len, place) = (self.bytes.len(), self.bytes.iter().position(is_end));
        let end = match (self.form, place) {
            (Form::Dcs, _) => format!(in alloc; "\t{len} complete")?,
            (_, Some(place)) => format!(in alloc; "\t{place} terminated ")?,
            (_, None) => format!(in alloc; "\t{len} more")?,
        };
        let is_end = output.text.starts_with(end.as_str()) || output.is_rejected();
        let is_same = output.text.ends_with(found.as_str());
        ensure(is_end && is_same, "single bytes")?;
        check_decoder(&decoder, &output.after)?;
        Ok((output, area))
    }

    /// Checks uneven chunks and, if the input is small, every split in two.
    pub fn check_chunks(&self, alloc: Global, area: usize, output: &Output) -> Result<()> {
        let len = self.bytes.len();
        if len <= 120 && area.saturating_mul(len) <= 4_000_000 {
            for cut in 0..=len {
                self.check(alloc, &[cut, 0], output)?;
            }
        }
        let seeds = if area <= 100_000 { 16 } else { 1 };
        for seed in 1..=seeds {
            self.check(alloc, &uneven(alloc, seed, len)?, output)?;
        }
        Ok(())
    }

    /// Checks every pair of cuts, with empty chunks between, and chunks of every length.
    pub fn check_pairs(&self, alloc: Global, output: &Output) -> Result<()> {
        let len = self.bytes.len();
        for first in 0..=len {
            for second in 0..=len.saturating_sub(first) {
                self.check(alloc, &[first, 0, second, 0], output)?;
            }
            self.check(alloc, &vec![in alloc; first; len]?, output)?;
        }
        Ok(())
    }

    /// Checks chunks of these lengths, and then of what remains.
    fn check(&self, alloc: Global, lengths: &[usize], output: &Output) -> Result<()> {
        for is_receiver in [false, true] {
            let owner = Owner::new(&self.start, is_receiver)?;
            let other = self.play(alloc, owner, lengths, output.count)?;
            ensure(output.text == other.text, "chunks")?;
            let (height, expected) = (other.drawn_height, output.drawn_height);
            ensure(height == expected, "drawn height")?;
            check_decoder(&other.after, &output.after)?;
        }
        Ok(())
    }

    /// Begins an image and feeds chunks.
    fn play(
        &self,
        alloc: Global,
        mut owner: Owner,
        lengths: &[usize],
        failing: usize,
    ) -> Result<Output> {
        let mut text = String::new(alloc);
        let session = owner.begin(alloc, self.form)?;
        let (count, drawn_height) = self.feed_all(&mut text, session, lengths, failing)?;
        let after = owner.into_decoder();
        Ok(Output {
            count,
            drawn_height,
            text,
            after,
        })
    }

    /// Feeds chunks, checks each call, writes the columns and returns the count and drawn height.
    fn feed_all(
        &self,
        found: &mut String,
        mut session: Session<'_>,
        lengths: &[usize],
        failing: usize,
    ) -> Result<(usize, usize)> {
        let (mut count, mut status) = (0_usize, Status::Dcs(SixelDcsFeedStatus::NeedMoreData));
        let mut rest = self.bytes.as_slice();
        for length in lengths.iter().chain(&[usize::MAX]) {
            let (chunk, after) = rest.split_at((*length).min(rest.len()));
            match session.feed(chunk) {
                Ok(fed) => {
                    ensure(follows(status, chunk, fed), "status of a feed")?;
                    (count, status) = (count.saturating_add(fed.consumed), fed.status);
                }
                Err(error) => {
                    let is_there = count <= failing && failing - count < chunk.len();
                    count = if is_there { failing } else { count };
                    write!(found, "\t{count} rejected")?;
                    push_error(found, &error)?;
                    self.check_failed(session, error)?;
                    return Ok((count, 0));
                }
            }
            rest = after;
        }
        let drawn_height = session.drawn_height();
        push_fed(found, count, status)?;
        push_outcome(found, &session.finish())?;
        Ok((count, drawn_height))
    }

    /// Checks that a session fails for good, a receiver with its first error.
    fn check_failed(&self, mut session: Session<'_>, first: SixelError) -> Result<()> {
        let is_receiver = matches!(session, Session::Receiver(_));
        let failed = Some(match (is_receiver, self.form) {
            (true, _) => first,
            (false, Form::Payload(_)) => SixelError::InvalidData("stream decoder has failed"),
            (false, Form::Dcs) => SixelError::InvalidData("DCS stream decoder has failed"),
        });
        ensure(session.feed(b"").err() == failed, "an empty feed")?;
        ensure(session.feed(&self.bytes).err() == failed, "a feed")?;
        let is_idle = session.is_idle() && session.drawn_height() == 0;
        ensure(is_idle, "work or drawn height")?;
        ensure(session.finish().err() == failed, "finish")?;
        Ok(())
    }
}

impl Output {
    /// Whether a feed failed.
    pub fn is_rejected(&self) -> bool {
        self.text.contains(" rejected\t")
    }
}

/// Whether a feed of a chunk reports what it must after a status.
fn follows(before: Status, chunk: &[u8], fed: Received) -> bool {
    if word(before).0 != "more" {
        return fed.consumed == 0 && fed.status == before;
    }
    let last = chunk.get(fed.consumed.wrapping_sub(1)).copied();
    match word(fed.status) {
        ("more", _) => fed.consumed == chunk.len(),
        ("complete", _) => last.is_some(),
        ("cancelled", byte) => last == byte,
        ("terminated", byte) => chunk.get(fed.consumed).copied() == byte,
        _ => fed.consumed < chunk.len(),
    }
}

/// Lengths of 1 to 97 bytes by a seed, an empty chunk after each.
fn uneven(alloc: Global, seed: u32, len: usize) -> Result<Vec<usize>> {
    let (mut lengths, mut random) = (Vec::new(alloc), Random::new(seed));
    for _ in 0..=len / 8 {
        lengths.extend_from_slice(&[1 + (random.next() % 97) as usize, 0])?;
    }
    Ok(lengths)
}
