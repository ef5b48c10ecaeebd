//! SIXEL decoding: the readers of payloads and DCS sequences, and their painter.
//!
//! The decoder's registers from one image to the next are stored by `icy_sixel`.
#![tactic(auto, using(std::proofs::lemmas::Bool::Decides::nat_tests))]

mod bytes;
mod colors;
mod dcs_end;
mod dcs_reader;
mod dcs_state;
mod decoded_payload;
mod drawn_rows;
mod front_sixels;
mod header;
mod image_end;
mod lenience;
mod one_shot;
mod painter;
mod payload_parser;
mod payload_reader;
mod raster;
mod received;

pub use dcs_reader::DcsReader;
pub use decoded_payload::DecodedPayload;
pub use one_shot::{decode_found, decode_payload};
pub use payload_reader::PayloadReader;
pub use received::{FailedRead, Received, Status};
