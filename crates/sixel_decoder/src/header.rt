//! The header of a DCS sequence: the parameters between its introducer and its `q`.

ghost use Rattle.std.specs.Prelude.{◌≡◌, ◌∷◌, ◌++◌, ◌⊎◌, ◌<◌, [], List, ℕ, MatchResult, IfOk};
ghost use Rattle.std.specs.Prelude.{IfErr, ◌≤◌, length, drop, IfSome, IfNone, Some, None};
ghost use Rattle.sixel_base.specs.{Fault.IsFault, Header.{headed, header_text, settings_of}};
ghost use Rattle.sixel_base.specs.{Header.{header_field, Begun}, OneShot.after_introducer};
ghost use Rattle.sixel_base.specs.inside.Parameters.{Keeps};
ghost use Rattle.sixel_decoder.specs.inside.Header.{IsHeaderFault};

use crate::bytes::{is_ignored, is_parameter, is_terminator};
use sixel_base::parameters::Parameters;
use sixel_base::settings::DcsSettings;
use sixel_base::{Result, SixelError};

/// A header that is read byte by byte, because a chunk may end within it.
#[derive(Clone, Copy)]
pub struct Header {
    pub parameters: Parameters,
}

impl Header {
    ghost use Rattle.sixel_decoder.specs.inside.Header.{StepsTo};

    /// Creates a header of which nothing was read.
    pub fn new() -> Header
        ensures { Keeps result.parameters [] }
    {
        Header {
            parameters: Parameters::new(),
        }
    }

    /// Reads a byte, and returns the settings at the `q`.
    ///
    /// A terminator is rejected as malformed data, and any other byte as a bad header.
    pub fn push(&mut self, byte: u8) -> Result<Option<DcsSettings>>
        ensures { (text : List ℕ) → Keeps self.old.parameters text
            → StepsTo result self.new.parameters text byte }
    {
        if is_parameter(byte) {
            self.parameters.push(byte);
            return Ok(None);
        }
        if is_ignored(byte) {
            return Ok(None);
        }
        if byte == b'q' {
            return Ok(Some(settings(&self.parameters)));
        }
        if is_terminator(byte) {
            return Err(SixelError::malformed());
        }
        Err(SixelError::bad_header())
    }
}

/// Reads the header at the front of the bytes, up to its `q`.
///
/// It returns the settings and the length of the header with `q`.
///
/// Bytes that end before the `q` are rejected.
pub fn read_header(bytes: &[u8]) -> Result<(DcsSettings, usize)>
    ensures within { IfOk result (λ header. header.1 ≤ length bytes.now) }
    ensures payload { IfOk result (λ header. headed bytes.now ≡ Begun (drop header.1 bytes.now)) }
    ensures settings { IfOk result (λ header. header.0 ≡ settings_of (header_text bytes.now)) }
    ensures error { IfErr result (λ error. IsHeaderFault error (headed bytes.now)) }
{
    let mut header = Header::new();
    'header: for (index, byte) in bytes.iter().enumerate() {
        match header.push(*byte) {
            Ok(None) => {}
            Ok(Some(settings)) => return Ok((settings, index + 1)),
            Err(error) => return Err(error),
        }
    }
    Err(SixelError::missing_command())
}

/// Returns where the bytes after the first introducer begin.
///
/// The introducer is DCS as one byte, or as ESC and `P`.
#[tactic(auto, using(crate::proofs::images::FoundPayloads::introductions))]
pub fn introducer_end(bytes: &[u8]) -> Option<usize>
    ensures within { IfSome result (λ start. start ≤ length bytes.now) }
    ensures found { IfSome result (λ start.
        after_introducer bytes.now ≡ Some (drop start bytes.now)) }
    ensures none { IfNone result (after_introducer bytes.now ≡ None) }
{
    'search: for index in 0..bytes.len() {
        match &bytes[index..] {
            [0x90, ..] => return Some(index + 1),
            [0x1b, b'P', ..] => return Some(index + 2),
            _ => {}
        }
    }
    None
}

/// Returns the settings of a header's parameters P1, P2 and P3.
///
/// Further parameters have no effect.
fn settings(parameters: &Parameters) -> DcsSettings
    ensures { (text : List ℕ) → Keeps parameters.now text → result ≡ settings_of text }
{
    DcsSettings::new(
        given(parameters, 0),
        given(parameters, 1),
        given(parameters, 2),
    )
}

/// Returns a parameter if there is one, where 65535 stands for any greater value.
fn given(parameters: &Parameters, k: usize) -> Option<u16>
    requires { k < 3 }
    ensures { (text : List ℕ) → Keeps parameters.now text → result ≡ header_field text k }
{
    if k < parameters.len() {
        Some(parameters.get(k).min(65535) as u16)
    } else {
        None
    }
}
