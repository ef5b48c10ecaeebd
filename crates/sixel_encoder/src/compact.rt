//! The compact SIXEL output of an image whose colors are chosen.

ghost use Rattle.std.specs.Prelude.{◌≡◌, ◌*◌, ◌<◌, ◌≤◌, ◌++◌, ◌∷◌, IfOk, None, OnOk, codes, length};
ghost use Rattle.std.specs.Prelude.{string_bytes};
ghost use Rattle.sixel_encoder.specs.Compact.{band_register, compact_marks, segment_marks};
ghost use Rattle.sixel_encoder.specs.Compact.{compact_text, drawn_after, marked_text, band_marks};
ghost use Rattle.sixel_encoder.specs.{Marks.marks_text, Text.text_of};
ghost use Rattle.sixel_encoder.specs.inside.Compact.{AreLanes, AreNumbersOf, IsSegment, IsWriter};
ghost use Rattle.sixel_encoder.specs.inside.{Compact.drawn_so_far, Indexed.{IsIndexed, drawing_of}};

use crate::band_entries::BandEntries;
use crate::bound::least_bytes;
use crate::pen::Pen;
use crate::pixels::used_bands;
use crate::register_order::{count_runs, number_entries, push_numbered};
use crate::run_tokens::push_row;
use crate::segment_rows::SegmentRows;
use crate::segments::{Segment, band_segments, in_passes};
use crate::text::{IndexedImage, begin_text, encode_indexed};
use std::alloc::{AllocError, Global};

/// Returns the compact SIXEL output of an image, or the plain one if that is shorter.
pub fn encode_compact(alloc: Global, image: &IndexedImage<'_>) -> Result<String, AllocError>
    requires { IsIndexed image.now }
    ensures { IfOk result (λ text. string_bytes text ≡ compact_text (drawing_of image.now)) }
{
    let (text, plain_bytes) = encode_marked(alloc, image)?;
    if text.len() <= plain_bytes {
        return Ok(text);
    }
    let plain = encode_indexed(alloc, image)?;
    if plain.len() < text.len() {
        return Ok(plain);
    }
    Ok(text)
}

/// Returns the output in segments that share passes.
///
/// The number beside it is how many bytes the plain output takes at least.
fn encode_marked(alloc: Global, image: &IndexedImage<'_>) -> Result<(String, usize), AllocError>
    requires { IsIndexed image.now }
    ensures text { IfOk result
        (λ marked. string_bytes marked.0 ≡ marked_text (drawing_of image.now)) }
    ensures plain { IfOk result (λ marked. marked.1 ≤ length (text_of (drawing_of image.now))) }
{
    let runs = count_runs(alloc, image)?;
    let numbers = number_entries(alloc, &runs)?;
    let mut text = begin_text(alloc, image)?;
    push_numbered(&mut text, image, &runs, &numbers)?;
    let mut writer = BandWriter {
        entries: BandEntries::new(alloc, image)?,
        numbers: &numbers,
        pen: Pen {
            column: 0,
            register: None,
        },
        rows: SegmentRows::new(alloc, image.width)?,
    };
    let plain_bytes = writer.push_bands(alloc, &mut text)?;
    Ok((text, plain_bytes))
}

/// Writes the bands of a compact output.
#[derive(Drop)]
struct BandWriter<'a> {
    /// The palette entries of the band.
    entries: BandEntries<'a>,
    /// The register of each palette entry.
    numbers: &'a [usize],
    /// Where the next sixel is written.
    pen: Pen,
    /// The rows of the band.
    rows: SegmentRows,
}

impl<'a> BandWriter<'a> {
    /// Appends all bands and the end of the sequence.
    ///
    /// Returns how many bytes the plain output takes at least.
    fn push_bands(&mut self, alloc: Global, text: &mut String) -> Result<usize, AllocError>
        requires writer { IsWriter self.old }
        requires register { self.old.pen.register ≡ None }
        ensures text { OnOk result (string_bytes text.new ≡ string_bytes text.old
            ++ marks_text (compact_marks (drawing_of self.old.entries.image.now))
            ++ 27 ∷ codes "\\") }
        ensures plain { IfOk result (λ bytes.
            bytes ≤ length (text_of (drawing_of self.old.entries.image.now))) }
    {
        let mut plain_bytes: usize = 0;
        for band in 0..used_bands(self.entries.image) {
            self.push_band(alloc, text, band)?;
            plain_bytes = plain_bytes.saturating_add(least_bytes(&self.entries));
        }
        text.push_str("\x1b\\")?;
        Ok(plain_bytes)
    }

    /// Appends a band.
    fn push_band(&mut self, alloc: Global, text: &mut String, band: usize) -> Result<(), AllocError>
        requires writer { IsWriter self.old }
        requires band { 6 * band < self.old.entries.image.now.height }
        ensures writer { OnOk result (IsWriter self.new) }
        ensures image { self.new.entries.image ≡ self.old.entries.image }
        ensures entries { OnOk result (AreLanes self.new.entries) }
        ensures band { OnOk result (self.new.entries.band ≡ band) }
        ensures text { OnOk result (string_bytes text.new ≡ string_bytes text.old ++ marks_text
            (band_marks (drawing_of self.old.entries.image.now) band self.old.pen.register)) }
        ensures register { OnOk result (self.new.pen.register
            ≡ band_register (drawing_of self.old.entries.image.now) band self.old.pen.register) }
    {
        self.pen.begin_band(text, band)?;
        self.entries.read(band);
        let segments = in_passes(alloc, &band_segments(alloc, &self.entries)?)?;
        self.rows.begin(&self.entries);
        for segment in &segments {
            self.push_segment(text, segment)?;
        }
        Ok(())
    }

    /// Appends a segment, from its register to its last sixel.
    fn push_segment(&mut self, text: &mut String, segment: &Segment) -> Result<(), AllocError>
        requires writer { IsWriter self.old }
        requires entries { AreLanes self.old.entries }
        requires within { IsSegment (drawing_of self.old.entries.image.now) segment.now }
        ensures writer { OnOk result (IsWriter self.new) }
        ensures entries { self.new.entries ≡ self.old.entries }
        ensures text { OnOk result (string_bytes text.new ≡ string_bytes text.old ++ marks_text
            (segment_marks (drawing_of self.old.entries.image.now) self.old.entries.band
            (drawn_so_far self.old) segment.now)) }
        ensures drawn { OnOk result (drawn_so_far self.new ≡ drawn_after
            (drawing_of self.old.entries.image.now) self.old.entries.band (drawn_so_far self.old)
            segment.now) }
    {
        self.pen.go_to(text, segment)?;
        let numbers = self.numbers;
        self.pen.select(text, numbers[segment.entry])?;
        let from = self.pen.column;
        self.pen.column = segment.end;
        self.rows.draw(&self.entries, segment, from)?;
        push_row(text, &self.rows.row)
    }
}
