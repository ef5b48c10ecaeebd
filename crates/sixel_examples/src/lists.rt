//! Lists of steps on one decoder.

use icy_sixel::script::{End, Outcome, Step, run};
use icy_sixel::{Result, SixelDecoder};
use std::alloc::Global;

/// Replays a recording: a DCS sequence in chunks of 4 bytes, and an aborted one.
pub fn replay(alloc: Global, decoder: &mut SixelDecoder, string: &[u8]) -> Result<Vec<Outcome>> {
    let steps = [
        Step::Dcs {
            bytes: string,
            cuts: &[4, 4],
            ending: End::Finish,
        },
        Step::Dcs {
            bytes: string,
            cuts: &[],
            ending: End::Abort,
        },
        Step::Reset,
    ];
    run(alloc, decoder, &steps)
}
