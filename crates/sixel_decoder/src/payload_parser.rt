//! The parser of a payload: the open command, and its parameters so far.
//!
//! A command takes effect when it is closed: by the next byte that does not continue it, by the
//! terminator, or by the end. So a chunk may end within a command.

ghost use Rattle.std.specs.Prelude.{◌≡◌, ◌<◌, ◌≤◌, ◌+◌, ◌∷◌, ℕ, true, false, [], length, max, min};
ghost use Rattle.std.specs.Prelude.{slice_index, fold, take, IfOk, IsTrue, OnOk, ◌⊎◌, Bool};
ghost use Rattle.std.specs.Prelude.{if◌then◌else◌};
ghost use Rattle.sixel_canvas.specs.Drawn.{no_work};
ghost use Rattle.sixel_base.specs.{Decoder.origin_of, History.{History, begun, goes_on, read}};
ghost use Rattle.sixel_base.specs.{Lenient.{effective, ignored_count}, Stroke.Origin};
ghost use Rattle.sixel_base.specs.inside.Parameters.{IsDigit};
ghost use Rattle.sixel_decoder.specs.inside.Runs.{IsPrintable, IsSixelByte};
ghost use Rattle.sixel_decoder.specs.declared.payload_parser.OpenCommand.TheVariants.{Ground};
ghost use Rattle.sixel_decoder.specs.declared.payload_parser.OpenCommand.TheVariants.{InRepeat};
ghost use Rattle.sixel_decoder.specs.declared.payload_parser.OpenCommand.TheVariants.{InColor};
ghost use Rattle.sixel_base.specs.Bytes.{is_sixel as sixel};

use crate::bytes::{is_ignored, is_numbered, is_parameter, is_terminator};
use crate::decoded_payload::DecodedPayload;
use crate::lenience::tolerate;
use crate::painter::Painter;
use sixel_base::Result;
use sixel_base::parameters::{Digits, KEPT_FIELDS, Parameters};
use sixel_base::settings::DcsSettings;
use sixel_base::state::DecoderState;
use sixel_base::status::{SixelFeedResult, SixelFeedStatus};
use sixel_canvas::band_canvas::BandCanvas;
use sixel_canvas::drawing::Canvas;
use std::alloc::Global;

/// The command that may continue, or `Ground` where none is open.
#[derive(Clone, Copy, PartialEq, Eq)]
pub enum OpenCommand {
    Ground,
    InRepeat,
    InRaster,
    InColor,
}

impl OpenCommand {
    /// Returns the command that `!` or `#` opens.
    #[inline(always)]
    fn numbered(byte: u8) -> OpenCommand
        ensures repeat { byte ≡ 33 → result ≡ InRepeat }
        ensures color { byte ≡ 35 → result ≡ InColor }
    {
        if byte == b'!' {
            OpenCommand::InRepeat
        } else {
            OpenCommand::InColor
        }
    }
}

/// A payload's open command, the painter that has drawn the closed ones, and how many it ignored.
#[derive(Drop)]
pub struct PayloadParser<C: Canvas + Drop> {
    pub command: OpenCommand,
    pub parameters: Parameters,
    pub painter: Painter<C>,
    pub ignored: u64,
}

impl<C: Canvas + Drop> PayloadParser<C> {
    ghost use Rattle.sixel_decoder.specs.inside.Painter.{Ends};
    ghost use Rattle.sixel_decoder.specs.inside.PayloadParser.{Stands, Reads, Reaches, Feeds};
    ghost use Rattle.sixel_decoder.specs.inside.PayloadParser.{StandsAfter};
    ghost use Rattle.sixel_decoder.specs.inside.Lenient.{Tolerates, HasDrawn};

    /// Creates a parser that has read nothing.
    pub fn new(alloc: Global, decoder: DecoderState, settings: DcsSettings) -> PayloadParser<C>
        ensures stands { Stands (origin_of decoder settings) result [] }
        ensures work { C.work result.painter.canvas ≡ no_work }
        ensures released { C.released result.painter.canvas ≡ 0 }
    {
        PayloadParser {
            command: OpenCommand::Ground,
            parameters: Parameters::new(),
            painter: Painter::new(alloc, decoder, settings),
            ignored: 0,
        }
    }

    /// Reads a chunk up to its first terminator, which closes the open command.
    ///
    /// Sixels of eight bytes or more are drawn eight at once.
    #[inline(always)]
    pub fn feed(&mut self, chunk: &[u8]) -> Result<SixelFeedResult>
        ensures feeds { (o : Origin) (h : History) → Stands o self.old h
            → Feeds result o self.new h chunk.now }
        ensures released { OnOk result
            (C.released self.new.painter.canvas ≡ C.released self.old.painter.canvas) }
    {
        if chunk.len() >= 8 {
            return self.read_chunk(chunk, 0);
        }
        'front: for index in 0..chunk.len() {
            if !self.try_byte(chunk[index]) {
                return self.read_chunk(chunk, index);
            }
        }
        Ok(SixelFeedResult {
            consumed: chunk.len(),
            status: SixelFeedStatus::NeedMoreData,
        })
    }

    /// Reads a byte that cannot fail, and returns whether it is one.
    ///
    /// Any other byte changes nothing.
    ///
    /// It is a digit of the open command, opens one, or is a sixel in a column for which the canvas
    /// has memory. An open color command that defines no register is closed first.
    #[tactic(auto, using(crate::proofs::chunks::ParserSteps::byte_reads))]
    #[inline(always)]
    pub fn try_byte(&mut self, byte: u8) -> bool
        ensures printable { IsTrue result → IsPrintable byte }
        ensures stands { IsTrue result → (o : Origin) (h : History) → Stands o self.old h
            → Stands o self.new (read h byte) }
        ensures left { result ≡ false → self.new ≡ self.old }
        ensures released { C.released self.new.painter.canvas
            ≡ C.released self.old.painter.canvas }
    {
        if matches!(byte, b'?'..=b'~') {
            return self.try_sixel(byte);
        }
        if byte.is_ascii_digit() && self.takes(byte) {
            self.parameters.push_digit(byte);
            return true;
        }
        if !is_numbered(byte) || !self.try_close() {
            return false;
        }
        self.command = OpenCommand::numbered(byte);
        self.parameters = Parameters::new();
        true
    }

    /// Draws a sixel that cannot fail, and returns whether it is one.
    ///
    /// Any other byte changes nothing.
    #[inline(always)]
    fn try_sixel(&mut self, byte: u8) -> bool
        requires { IsSixelByte byte }
        ensures stands { IsTrue result → (o : Origin) (h : History) → Stands o self.old h
            → Stands o self.new (read h byte) }
        ensures left { result ≡ false → self.new ≡ self.old }
        ensures released { C.released self.new.painter.canvas
            ≡ C.released self.old.painter.canvas }
    {
        if self.painter.column >= self.painter.ready || !self.try_close() {
            return false;
        }
        self.painter.draw_column(byte - 0x3f);
        true
    }

    /// Closes a command that only selects a color, and returns whether none is open.
    ///
    /// Any other command stays open.
    #[inline(always)]
    fn try_close(&mut self) -> bool
        ensures ground { IsTrue result → self.new.command ≡ Ground }
        ensures shows { IsTrue result → (o : Origin) (h : History) → Stands o self.old h
            → HasDrawn o self.new.painter self.new.ignored h }
        ensures ready { self.new.painter.ready ≡ self.old.painter.ready }
        ensures column { self.new.painter.column ≡ self.old.painter.column }
        ensures left { result ≡ false → self.new ≡ self.old }
        ensures released { C.released self.new.painter.canvas
            ≡ C.released self.old.painter.canvas }
    {
        if self.command == OpenCommand::Ground {
            return true;
        }
        if self.command != OpenCommand::InColor || self.parameters.len() >= KEPT_FIELDS {
            return false;
        }
        self.command = OpenCommand::Ground;
        self.painter.select_only(&self.parameters);
        true
    }

    /// Whether the byte continues the open command.
    fn takes(&self, byte: u8) -> bool
        ensures takes { (o : Origin) (h : History) → Stands o self.now h → result ≡ goes_on h byte }
        ensures parameter { IsTrue result → IsDigit byte ⊎ (byte ≡ 59) }
    {
        match self.command {
            OpenCommand::Ground => false,
            OpenCommand::InRepeat => byte.is_ascii_digit(),
            OpenCommand::InRaster | OpenCommand::InColor => is_parameter(byte),
        }
    }

    /// Reads the rest of a chunk, from this byte on.
    #[inline(never)]
    fn read_chunk(&mut self, chunk: &[u8], from: usize) -> Result<SixelFeedResult>
        ensures feeds { (o : Origin) (h : History) → Reaches o self.old h from chunk.now
            → Feeds result o self.new h chunk.now }
        ensures released { OnOk result
            (C.released self.new.painter.canvas ≡ C.released self.old.painter.canvas) }
    {
        let mut index = from;
        'bytes: while index < chunk.len() {
            let byte = chunk[index];
            if matches!(byte, b'?'..=b'~') {
                self.close()?;
                let drawn = self
                    .painter
                    .draw_sixels(&chunk[index..], &mut self.ignored)?;
                index += drawn;
            } else if is_numbered(byte) {
                self.close()?;
                let read = self.open_numbered(&chunk[index..]);
                index += read;
            } else {
                if is_terminator(byte) {
                    self.close()?;
                    return Ok(SixelFeedResult {
                        consumed: index,
                        status: SixelFeedStatus::Terminated(byte),
                    });
                }
                if !is_ignored(byte) {
                    self.push(byte)?;
                }
                index += 1;
            }
        }
        Ok(SixelFeedResult {
            consumed: index,
            status: SixelFeedStatus::NeedMoreData,
        })
    }

    /// Closes the open command, which then takes effect.
    #[inline(always)]
    fn close(&mut self) -> Result<()>
        ensures ground { self.new.command ≡ Ground }
        ensures drawn { (o : Origin) (h : History) → Stands o self.old h
            → Tolerates result o self.new.painter self.new.ignored h }
        ensures kept { (o : Origin) (h : History) → self.old.command ≡ Ground
            → HasDrawn o self.old.painter self.old.ignored h
            → Tolerates result o self.new.painter self.new.ignored h }
        ensures released { OnOk result
            (C.released self.new.painter.canvas ≡ C.released self.old.painter.canvas) }
    {
        let command = self.command;
        self.command = OpenCommand::Ground;
        match command {
            OpenCommand::Ground => Ok(()),
            OpenCommand::InRepeat => {
                let lenient = self.painter.pixel_limit.lenient();
                let outcome = self.painter.set_repeat(&self.parameters);
                tolerate(lenient, outcome, &mut self.ignored)
            }
            OpenCommand::InRaster => {
                let lenient = self.painter.pixel_limit.lenient();
                let outcome = self.painter.set_raster(&self.parameters);
                tolerate(lenient, outcome, &mut self.ignored)
            }
            OpenCommand::InColor => {
                self.painter.select(&self.parameters);
                Ok(())
            }
        }
    }

    /// Opens the command at the front, and returns its length with its digits.
    #[inline(always)]
    fn open_numbered(&mut self, bytes: &[u8]) -> usize
        requires some { 0 < length bytes.now }
        requires numbered { (slice_index bytes.now 0 ≡ 33) ⊎ (slice_index bytes.now 0 ≡ 35) }
        ensures some { 0 < result }
        ensures within { result ≤ length bytes.now }
        ensures printable { (k : ℕ) → k < result → IsPrintable (slice_index bytes.now k) }
        ensures stands { (o : Origin) (h : History)
            → HasDrawn o self.old.painter self.old.ignored h
            → Stands o self.new (fold read h (take result bytes.now)) }
        ensures released { C.released self.new.painter.canvas
            ≡ C.released self.old.painter.canvas }
    {
        let digits = Digits::at_front(&bytes[1..]);
        self.command = OpenCommand::numbered(bytes[0]);
        self.parameters = digits.parameters;
        digits.len + 1
    }

    /// Reads any other byte that is no control.
    #[tactic(auto, using(crate::proofs::chunks::ParserSteps::byte_reads))]
    fn push(&mut self, byte: u8) -> Result<()>
        requires sixel { sixel byte ≡ false }
        requires numbered { (byte ≡ 33 → ⊥) × (byte ≡ 35 → ⊥) }
        ensures reads { (o : Origin) (h : History) → Stands o self.old h
            → Reads result o self.new h (read h byte) }
        ensures released { OnOk result
            (C.released self.new.painter.canvas ≡ C.released self.old.painter.canvas) }
    {
        if self.takes(byte) {
            self.parameters.push(byte);
            return Ok(());
        }
        self.close()?;
        self.begin(byte)
    }

    /// Begins the token of such a byte.
    fn begin(&mut self, byte: u8) -> Result<()>
        requires ground { self.old.command ≡ Ground }
        requires sixel { sixel byte ≡ false }
        requires numbered { (byte ≡ 33 → ⊥) × (byte ≡ 35 → ⊥) }
        ensures reads { (o : Origin) (h : History)
            → HasDrawn o self.old.painter self.old.ignored h
            → Reads result o self.new h (begun byte ∷ h) }
        ensures released { OnOk result
            (C.released self.new.painter.canvas ≡ C.released self.old.painter.canvas) }
    {
        match byte {
            b'"' => {
                self.command = OpenCommand::InRaster;
                self.parameters = Parameters::new();
                Ok(())
            }
            b'$' => {
                self.painter.carriage_return();
                Ok(())
            }
            b'-' => {
                let lenient = self.painter.pixel_limit.lenient();
                let outcome = self.painter.new_line();
                tolerate(lenient, outcome, &mut self.ignored)
            }
            _ => Ok(()),
        }
    }

    /// Closes the open command, and returns the rows that are left with the registers.
    pub fn finish(mut self) -> Result<DecodedPayload>
        ensures ends { (o : Origin) (h : History) (ended : Bool) → StandsAfter ended o self h
            → Ends result o (effective o.pixel_limit h) (ignored_count o.pixel_limit h) }
        ensures first { IfOk result (λ picture.
            picture.first_row ≡ min (C.released self.painter.canvas) picture.height) }
    {
        match self.close() {
            Ok(()) => self.painter.take_image(self.ignored),
            Err(error) => Err(error),
        }
    }
}

impl PayloadParser<BandCanvas> {
    ghost use Rattle.sixel_decoder.specs.inside.PayloadParser.{StandsAfter};

    /// Releases the rows above row `rows`, which are final.
    pub fn release_rows(&mut self, rows: usize)
        requires above { rows ≤ self.old.painter.canvas.top }
        ensures stands { (o : Origin) (h : History) (ended : Bool)
            → StandsAfter ended o self.old h → StandsAfter ended o self.new h }
        ensures released { self.new.painter.canvas.released
            ≡ max self.old.painter.canvas.released rows }
        ensures band { self.new.painter.canvas.band ≡ self.old.painter.canvas.band }
        ensures writes { self.new.painter.canvas.rows.moved ≡ self.old.painter.canvas.rows.moved }
    {
        self.painter.release_rows(rows);
    }
}
