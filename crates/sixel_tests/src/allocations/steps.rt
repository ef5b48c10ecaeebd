//! A list of steps, of which one may fail while the others go on.

use crate::allocations::picture::{color_of, error_if, has_colors, set_colors};
use icy_sixel::script::{End, Outcome, Step, run};
use icy_sixel::{DcsSettings, Result, SixelDecoder, SixelError};
use std::alloc::Global;

/// The color that each step defines in register 42, if it does.
const DEFINED: &[Option<[u8; 3]>] = &[
    Some([255, 0, 0]),
    None,
    Some([0, 255, 0]),
    None,
    Some([0, 0, 255]),
];

/// Steps that each draw with register 42. The one that is aborted defines no register.
fn steps(settings: DcsSettings) -> [Step<'static>; 5] {
    [
        Step::DecodeFromDcs(b"#42;2;100;0;0~", settings),
        Step::Dcs {
            bytes: b"\x1bPq#42;2;1;1;1~\x1b\\tail",
            cuts: &[3, 1, 2],
            ending: End::Abort,
        },
        Step::Frame {
            settings,
            bytes: b"#42;2;0;100;0~!300~-~",
            cuts: &[14, 5],
            ending: End::Finish,
        },
        Step::DecodeFromDcs(b"#42~", settings),
        Step::Decode(b"text\x1bPq#42;2;0;0;100~\x1b\\"),
    ]
}

/// Runs the steps. At most one of them may be out of memory. Sets all registers again.
pub fn run_steps(
    alloc: Global,
    decoder: &mut SixelDecoder,
    failed_step: &mut Option<usize>,
) -> Result<bool> {
    let is_right = match run(alloc, decoder, &steps(DcsSettings::default())) {
        Ok(outcomes) => Ok(are_right(&outcomes, decoder, failed_step)),
        Err(error) => error_if(has_colors(decoder, color_of(42)), error),
    };
    set_colors(decoder);
    is_right
}

/// Whether each step drew with the color of the last definition, and the decoder has it then.
fn are_right(
    outcomes: &[Outcome],
    decoder: &SixelDecoder,
    failed_step: &mut Option<usize>,
) -> bool {
    let mut color = color_of(42);
    for (index, outcome) in outcomes.iter().enumerate() {
        match outcome {
            Outcome::Failed(SixelError::OutOfMemory) if failed_step.is_none() => {
                *failed_step = Some(index);
            }
            Outcome::Decoded(image) | Outcome::Finished { image, .. } => {
                if let Some(Some(defined)) = DEFINED.get(index) {
                    color = *defined;
                }
                let [red, green, blue] = color;
                if !image.pixels.starts_with(&[red, green, blue, 255]) {
                    return false;
                }
            }
            Outcome::Aborted { .. } => (),
            _ => return false,
        }
    }
    (outcomes.len() == DEFINED.len()) & has_colors(decoder, color)
}
