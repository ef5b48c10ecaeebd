//! The reader of a payload in chunks: the bytes so far, and their parser.
//!
//! The contracts of its calls are the records of `PayloadCalls`.

ghost use Rattle.std.specs.Prelude.{◌≡◌, ◌≤◌, ◌<◌, ◌+◌, ◌∷◌, [], true, false, length, max, min};
ghost use Rattle.std.specs.Prelude.{None, IsTrue, IfErr, IfSome};
ghost use Rattle.sixel_base.specs.{Bytes.is_terminated, Clip.clipped_pixel, Decoder.origin_of};
ghost use Rattle.sixel_base.specs.Payload.{tokens};
ghost use Rattle.sixel_canvas.specs.Layout.{AreCopied, AreRowsIn};
ghost use Rattle.sixel_decoder.specs.{FedImages.uncounted, FinalRows.payload_final_rows};
ghost use Rattle.sixel_decoder.specs.{FinalRows.row_count, FinishedImages.IsTaken};
ghost use Rattle.sixel_decoder.specs.{ImageEnds.Extends, PayloadCalls.{begun, byte_read, IsFed}};
ghost use Rattle.sixel_decoder.specs.Progress.{IsBandPaintCount, IsBandWriteCount, IsDrawnHeight};
ghost use Rattle.sixel_decoder.specs.Progress.{IsPaintCount, IsSizeSoFar, IsWriteCount};
ghost use Rattle.sixel_decoder.specs.Reception.{OfPayload, of_payload};
ghost use Rattle.sixel_decoder.specs.inside.PayloadReader.{IsLost, IsPainterOf};

use crate::decoded_payload::DecodedPayload;
use crate::image_end::payload_end;
use crate::painter::Painter;
use crate::payload_parser::PayloadParser;
use crate::received::FailedRead;
use sixel_base::ghost_list::GhostList;
use sixel_base::settings::DcsSettings;
use sixel_base::state::DecoderState;
use sixel_base::status::{SixelFeedResult, SixelFeedStatus};
use sixel_base::{Result, SixelError};
use sixel_canvas::band_canvas::BandCanvas;
use sixel_canvas::channels::RowLayout;
use sixel_canvas::drawing::Canvas;
use sixel_canvas::row_canvas::RowCanvas;
use std::alloc::Global;
use std::marker::Model;
use std::result;
use std::snapshot::Snapshot;

/// A payload that is read in chunks. It has no parser once a feed has failed.
#[derive(Drop)]
pub struct PayloadReader<C: Canvas + Drop> {
    parser: Option<PayloadParser<C>>,
    terminator: Option<u8>,
    settings: DcsSettings,
    start: Snapshot<DecoderState>,
    log: GhostList<u8>,
}

impl<C: Canvas + Drop> Model for PayloadReader<C> {
    ghost use Rattle.sixel_decoder.specs.Session.{Session};

    ghost Value = { Session };

    ghost use Rattle.sixel_decoder.specs.inside.PayloadReader.{session_of, IsReading};

    ghost view = { session_of };

    ghost invariant = { IsReading };
}

impl<C: Canvas + Drop> PayloadReader<C> {
    /// Creates a reader that was fed nothing.
    pub fn new(alloc: Global, decoder: DecoderState, settings: DcsSettings) -> PayloadReader<C>
        ensures { result ≡ begun (origin_of decoder settings) }
    {
        PayloadReader {
            parser: Some(PayloadParser::new(alloc, decoder, settings)),
            terminator: None,
            settings,
            start: Snapshot::of(&decoder),
            log: GhostList::new(),
        }
    }

    /// Reads a chunk up to the first terminator of all chunks.
    ///
    /// After an error every feed fails, and only counts.
    #[inline(always)]
    pub fn feed(&mut self, chunk: &[u8]) -> result::Result<SixelFeedResult, FailedRead>
        ensures fed { IsFed self.old self.new chunk.now (uncounted result) }
        ensures counted { IfErr result (λ failed. Extends (OfPayload self.old.origin.settings)
            self.old.bytes self.new.bytes chunk.now failed.fed) }
    {
        self.log.extend(chunk);
        let Some(parser) = &mut self.parser else {
            let error = SixelError::stream_failed();
            return Err(payload_end(&mut self.terminator, chunk, error));
        };
        match self.terminator {
            Some(byte) => Ok(SixelFeedResult {
                consumed: 0,
                status: SixelFeedStatus::Terminated(byte),
            }),
            None => match parser.feed(chunk) {
                Ok(fed) => {
                    self.terminator = fed.status.terminator();
                    Ok(fed)
                }
                Err(error) => {
                    drop_parser(&mut self.parser);
                    Err(payload_end(&mut self.terminator, chunk, error))
                }
            },
        }
    }

    /// Reads a byte of the payload that cannot fail, and returns whether it is one.
    ///
    /// Any other byte changes nothing. After a terminator and after an error no byte is read.
    #[inline(always)]
    pub fn try_byte(&mut self, byte: u8) -> bool
        ensures fed { IsTrue result → IsFed self.old self.new (byte ∷ []) byte_read }
        ensures left { result ≡ false → self.new ≡ self.old }
    {
        let Some(parser) = &mut self.parser else {
            return false;
        };
        if self.terminator.is_some() || !parser.try_byte(byte) {
            return false;
        }
        self.log.push(byte);
        true
    }

    /// Returns the width and the height of the image so far, unless a feed has failed.
    pub fn size_so_far(&self) -> Option<(usize, usize)>
        ensures { IsSizeSoFar (of_payload self.now) result }
    {
        let painter = self.painter()?;
        Some((painter.clipped_width, painter.clipped_height))
    }

    /// Returns the last row with a set pixel, plus one, or 0 if there is none.
    pub fn drawn_height(&self) -> usize
        ensures { IsDrawnHeight (of_payload self.now) result }
    {
        let Some(painter) = self.painter() else {
            return 0;
        };
        painter.drawn_height()
    }

    /// Returns how many rows from the top are final, and 0 after a failed feed.
    pub fn rows_so_far(&self) -> usize
        ensures { result ≡ row_count self.now.is_refused
            (payload_final_rows self.now.origin.pixel_limit self.now.bytes) }
    {
        let Some(painter) = self.painter() else {
            return 0;
        };
        painter.canvas.top().min(painter.clipped_height)
    }

    /// Whether a terminator was fed, and no feed has failed.
    pub fn has_ended(&self) -> bool
        ensures accepted { self.now.is_refused ≡ false → result ≡ is_terminated self.now.bytes }
        ensures refused { self.now.is_refused ≡ true → result ≡ false }
    {
        self.parser.is_some() && self.terminator.is_some()
    }

    /// Returns the rows of the image that are left, and the registers after it.
    pub fn finish(self) -> Result<DecodedPayload>
        ensures { IsTaken (of_payload self) result }
    {
        let PayloadReader { parser, .. } = self;
        match parser {
            Some(parser) => parser.finish(),
            None => Err(SixelError::stream_failed()),
        }
    }

    /// Lends the painter, unless a feed has failed.
    #[tactic(auto, using(crate::proofs::chunks::Joined::shown_settled))]
    fn painter(&self) -> Option<&Painter<C>>
        ensures lent { IfSome result (λ painter. IsPainterOf painter.now self.now) }
        ensures lost { result ≡ None → IsLost self.now }
    {
        match &self.parser {
            Some(parser) => Some(&parser.painter),
            None => None,
        }
    }
}

impl PayloadReader<RowCanvas> {
    /// States that no row of its canvas is released.
    pub fn stores_all_rows(&self)
        ensures { self.now.released ≡ 0 }
    {
        match &self.parser {
            Some(_) => {}
            None => {}
        }
    }

    /// Returns how many pixels were copied or filled to grow the canvas.
    #[tactic(auto, using(crate::proofs::drawing::RunCosts::history_cost))]
    pub fn writes(&self) -> u64
        ensures { IsWriteCount (of_payload self.now) result }
    {
        let Some(painter) = self.painter() else {
            return 0;
        };
        painter.canvas.writes()
    }

    /// Returns how many pixels sixels have painted at most.
    pub fn paints(&self) -> u64
        ensures { IsPaintCount (of_payload self.now) result }
    {
        let Some(painter) = self.painter() else {
            return 0;
        };
        painter.canvas.paints()
    }
}

impl PayloadReader<BandCanvas> {
    /// Returns how many pixels were written as the rows of the canvas became wider.
    pub fn writes(&self) -> u64
        ensures { IsBandWriteCount (of_payload self.now) result }
    {
        let Some(painter) = self.painter() else {
            return 0;
        };
        painter.canvas.writes()
    }

    /// Returns how many columns and tags sixels have painted at most.
    pub fn paints(&self) -> u64
        ensures { IsBandPaintCount (of_payload self.now) result }
    {
        let Some(painter) = self.painter() else {
            return 0;
        };
        painter.canvas.paints()
    }

    /// Copies final rows to a caller's memory.
    #[tactic(auto, using(crate::proofs::images::StableRows::pixel_settled))]
    pub fn copy_rows(&self, first: usize, rows: usize, layout: RowLayout, out: &mut [u8])
        requires stored { self.now.released ≤ first }
        requires above { first + rows
            ≤ payload_final_rows self.now.origin.pixel_limit self.now.bytes }
        requires accepted { 0 < rows → self.now.is_refused ≡ false }
        requires fits { AreRowsIn layout rows (length out.old) }
        ensures len { length out.new ≡ length out.old }
        ensures copied { AreCopied
            (clipped_pixel self.now.origin (tokens self.now.origin.pixel_limit self.now.bytes))
            first rows layout out.old out.new }
    {
        let Some(painter) = self.painter() else {
            return;
        };
        painter.canvas.copy_rows(first, rows, layout, out);
    }

    /// Returns how many rows from the top are released.
    pub fn released_rows(&self) -> usize
        ensures { result ≡ self.now.released }
    {
        let Some(painter) = self.painter() else {
            return 0;
        };
        painter.canvas.released()
    }

    /// Releases the rows above row `rows`, which are final.
    pub fn release_rows(&mut self, rows: usize)
        requires above { rows ≤ payload_final_rows self.old.origin.pixel_limit self.old.bytes }
        requires accepted { 0 < rows → self.old.is_refused ≡ false }
        ensures { self.new ≡ record self.old { released = max self.old.released rows } }
    {
        let Some(parser) = &mut self.parser else {
            return;
        };
        parser.release_rows(rows);
    }
}

/// Drops the parser of a payload that failed.
///
/// Out of line: inlined, LLVM clears the moved value on every feed.
#[cold]
#[inline(never)]
fn drop_parser<C: Canvas + Drop>(parser: &mut Option<PayloadParser<C>>)
    ensures { parser.new ≡ None }
{
    *parser = None;
}
