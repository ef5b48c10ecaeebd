//! Vectors of `rows.tsv`, `spans.tsv` and `writes.tsv`: the canvas and its work.

ghost use Rattle.std.specs.Prelude.{◌<◌};

use crate::vectors::error::{Result, VectorError, ensure};
use crate::vectors::notation::{bytes, numbers, rgba, size};
use crate::vectors::session::{Form, Owner, Session, settings};
use icy_sixel::canvas::{Row, fill_rgba_span};
use icy_sixel::{SixelDecoder, SixelStreamDecoder};
use std::alloc::Global;

/// Checks a vector of `rows.tsv`.
pub fn write_row(alloc: Global, found: &mut String, columns: &[&str]) -> Result<()> {
    let mut row = Row::new(alloc, [0, 0, 0, 255]);
    for column in columns {
        let (reached, _) = column
            .split_once(' ')
            .ok_or(VectorError::Check("no counts"))?;
        row.reach(reached.parse::<usize>()?.min(1_000_000))?;
        row.paint(0, row.len(), [255, 0, 0, 255]);
        let (pixels, capacity, writes) = (row.len(), row.room(), row.writes());
        write!(found, "\t{reached} {pixels} {capacity} {writes}")?;
    }
    Ok(())
}

/// Checks a vector of `spans.tsv`.
pub fn check_spans(alloc: Global, [lengths, offsets, color]: [&str; 3]) -> Result<()> {
    let (lengths, offsets) = (numbers(alloc, lengths)?, numbers(alloc, offsets)?);
    let ([first, last], [low, high]) = (lengths.as_slice(), offsets.as_slice()) else {
        return Err(VectorError::Check("no lengths and offsets"));
    };
    for length in *first..=*last {
        for offset in *low..=*high {
            check_span(alloc, length, offset, rgba(color)?)?;
        }
    }
    Ok(())
}

/// Fills a span, and checks its bytes and those around it.
fn check_span(alloc: Global, length: usize, offset: usize, color: [u8; 4]) -> Result<()> {
    let end = offset.saturating_add(length);
    let mut bytes = vec![in alloc; 9_u8; end.saturating_add(3)]?;
    fill_rgba_span(&mut bytes[offset..end], color);
    for (index, byte) in bytes.iter().enumerate() {
        let is_inside = offset <= index && index < end;
        let expected = if is_inside {
            color[index.saturating_sub(offset) % 4]
        } else {
            9
        };
        ensure(*byte == expected, "byte of a span")?;
    }
    Ok(())
}

/// What a session draws, and what its canvas may write.
#[derive(Drop)]
struct Work {
    before: Vec<u8>,
    payload: Vec<u8>,
    /// Columns of the whole payload; if none, each of its bytes is a column.
    columns: Option<usize>,
    size: (usize, usize),
}

/// Checks a vector of `writes.tsv`.
pub fn check_work(alloc: Global, columns: [&str; 5]) -> Result<()> {
    let [start, before, payload, columns, dimensions] = columns;
    let (form, mut decoder) = settings(start)?;
    let work = Work {
        before: bytes(alloc, before)?,
        payload: bytes(alloc, payload)?,
        columns: columns.parse::<usize>().ok(),
        size: size(dimensions)?,
    };
    for is_receiver in [false, true] {
        work.check_owner(alloc, &decoder, is_receiver, form)?;
    }
    match form {
        Form::Payload(settings) => work.check_counted(decoder.begin_frame(alloc, settings)?),
        Form::Dcs => Ok(()),
    }
}

impl Work {
    /// Checks the work of an owner's sessions.
    fn check_owner(
        &self,
        alloc: Global,
        decoder: &SixelDecoder,
        is_receiver: bool,
        form: Form,
    ) -> Result<()> {
        let mut owner = Owner::new(decoder, is_receiver)?;
        self.check_lengths(alloc, &mut owner, form)
    }

    /// Checks the work of sessions with chunks of these lengths.
    fn check_lengths(&self, alloc: Global, owner: &mut Owner, form: Form) -> Result<()> {
        for length in [1, 7, 4096] {
            self.check(owner.begin(alloc, form)?, length)?;
        }
        Ok(())
    }

    /// Feeds chunks of a length and checks the work after each.
    fn check(&self, mut session: Session<'_>, length: usize) -> Result<()>
        requires { 0 < length }
    {
        session.feed(&self.before)?;
        ensure(session.is_idle(), "work before the payload")?;
        let (mut fed, mut sixels) = (0_usize, 0_u64);
        for chunk in self.payload.chunks(length) {
            session.feed(chunk)?;
            fed = fed.saturating_add(chunk.len());
            for byte in chunk {
                sixels = sixels.saturating_add(u64::from(matches!(*byte, 0x3f..=0x7e)));
            }
            let most = (self.columns.unwrap_or(fed) as u64).saturating_mul(18);
            let is_bounded = self.columns.is_none() || fed == self.payload.len();
            let least = if is_bounded { most / 3 } else { 0 };
            let (writes, paints) = session.work();
            let writes = writes.unwrap_or(least);
            ensure((least..=most).contains(&writes), "writes")?;
            let most_paints = most.saturating_add(sixels.saturating_mul(4602));
            ensure(paints <= most_paints, "paints")?;
        }
        session.feed(b"\x9c")?;
        ensure(session.finish()?.dimensions() == self.size, "size")?;
        Ok(())
    }

    /// Checks that `finish_counted` adds the image's pixels to the writes.
    fn check_counted(&self, mut session: SixelStreamDecoder<'_>) -> Result<()> {
        session.feed(&self.payload)?;
        let writes = session.canvas_writes();
        let (image, counted) = session.finish_counted()?;
        let packed = (image.pixels.len() / 4) as u64;
        ensure(counted.checked_sub(writes) == Some(packed), "counted")?;
        Ok(())
    }
}
