//! Makes the calls that allocate and that C does not have, and checks what a failed one leaves.
//!
//! A test runs the program once for each of its allocations, which fails then. One line of the
//! output differs then, and names the call. All calls are made twice: a failed call succeeds later.
//! `tests/c/allocations.c` makes the other calls.

mod image;
mod picture;
mod session;
mod steps;
mod unallocated;

use icy_sixel::{Result, SixelDecoder, SixelImage};
use image::{PIXELS, TEXT, TEXT_OF_ERROR, grow_row, is_shown, is_text};
use picture::{BANDS, RUN, TAGGED, set_colors};
use session::{
    DCS_CHUNKS, PAYLOAD_CHUNKS, RUN_CHUNKS, Session, TAGGED_CHUNKS, TAGGED_DCS_CHUNKS,
    draw_low_sixel, draw_payload,
};
use std::io;
use std::process::ExitCode;
use steps::run_steps;
use unallocated::make_unallocated_calls;

/// Makes all calls, and writes a line for each.
pub fn make_calls(rt: &HostRuntime) -> io::Result<ExitCode> {
    let image = SixelImage::from_rgba(Vec::from_slice(rt.alloc(), PIXELS)?, 3, 1);
    let mut decoder = SixelDecoder::new();
    set_colors(&mut decoder);
    for _pass in 0..2 {
        make_calls_of_decoder(rt, &mut decoder)?;
        make_calls_of_image(rt, &image)?;
    }
    Ok(ExitCode::SUCCESS)
}

/// Makes the calls of a decoder.
fn make_calls_of_decoder(rt: &HostRuntime, decoder: &mut SixelDecoder) -> io::Result<()> {
    let alloc = rt.alloc();
    let is_right = make_unallocated_calls(alloc, decoder);
    tell(rt, "calls that do not allocate", Ok(is_right))?;
    let image = draw_payload(alloc, decoder, PAYLOAD_CHUNKS);
    tell(rt, "payload session", BANDS.check(image, decoder))?;
    let image = Session::Dcs(decoder.begin_dcs(alloc)).draw(DCS_CHUNKS);
    tell(rt, "DCS session", BANDS.check(image, decoder))?;
    let image = draw_payload(alloc, decoder, RUN_CHUNKS);
    tell(rt, "run in a payload session", RUN.check(image, decoder))?;
    let image = draw_payload(alloc, decoder, TAGGED_CHUNKS);
    tell(
        rt,
        "tagged run in a payload session",
        TAGGED.check(image, decoder),
    )?;
    let image = Session::Dcs(decoder.begin_dcs(alloc)).draw(TAGGED_DCS_CHUNKS);
    tell(
        rt,
        "tagged run in a DCS session",
        TAGGED.check(image, decoder),
    )?;
    tell(rt, "a low sixel", draw_low_sixel(alloc, decoder))?;
    let mut failed_step = None;
    let is_right = run_steps(alloc, decoder, &mut failed_step);
    tell(rt, "script::run", is_right)?;
    println!(rt; "failed step: {failed_step:?}")
}

/// Makes the calls of an image and of a row.
fn make_calls_of_image(rt: &HostRuntime, image: &SixelImage) -> io::Result<()> {
    let alloc = rt.alloc();
    let text = image.to_display_string(alloc);
    tell(rt, "to_display_string", is_text(text, TEXT))?;
    let text = SixelImage::from_rgba(Vec::new(alloc), 0, 4).to_display_string(alloc);
    let is_right = is_text(text, TEXT_OF_ERROR);
    tell(rt, "to_display_string of an error", is_right)?;
    tell(rt, "clone", is_shown(image.clone(alloc), 1))?;
    let decoded = SixelImage::from_str(alloc, TEXT);
    tell(rt, "from_str", is_shown(decoded, 6))?;
    tell(rt, "Row::reach", grow_row(alloc))
}

/// Writes whether a call was right, or its error.
fn tell(rt: &HostRuntime, call: &str, is_right: Result<bool>) -> io::Result<()> {
    match is_right {
        Ok(true) => println!(rt; "{call}: ok"),
        Ok(false) => println!(rt; "{call}: wrong"),
        Err(error) => println!(rt; "{call}: {error}"),
    }
}
