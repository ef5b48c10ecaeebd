//! A row of sixels as run-length tokens: single sixels, and repeats with a count.

ghost use Rattle.std.specs.Prelude.{◌≡◌, ◌<◌, ◌++◌, OnOk, All, string_bytes};
ghost use Rattle.sixel_encoder.specs.RunTokens.{Many, spelling, Spells, IsShortest, written};
ghost use Rattle.sixel_encoder.specs.RunTokens.{run_tokens, row_tokens};

use crate::decimal::push_number;
use crate::runs::end_of_sixels;
use sixel_base::limits::MAX_REPEAT;
use std::alloc::AllocError;

/// The greatest count of a repeat introducer.
const LONGEST_REPEAT: usize = MAX_REPEAT as usize;

/// Appends a row of sixels, each given by its six bits, in the fewest bytes.
#[inline(never)]
#[tactic(auto, using(crate::proofs::band_rows::ShortestRows::row_rules))]
pub fn push_row(text: &mut String, row: &[u8]) -> Result<(), AllocError>
    requires { All (λ bits. bits < 64) row.now }
    ensures text { OnOk result
        (string_bytes text.new ≡ string_bytes text.old ++ written (row_tokens row.now)) }
    ensures spells { Spells (row_tokens row.now) row.now }
    ensures shortest { IsShortest (row_tokens row.now) row.now }
{
    let mut at = 0;
    'runs: while at < row.len() {
        let end = end_of_sixels(row, at);
        push_run(text, end - at, row[at])?;
        at = end;
    }
    Ok(())
}

/// Appends a run of equal sixels: repeats, and up to three sixels singly.
#[inline(always)]
fn push_run(text: &mut String, count: usize, bits: u8) -> Result<(), AllocError>
    requires { bits < 64 }
    ensures { OnOk result
        (string_bytes text.new ≡ string_bytes text.old ++ written (run_tokens count bits)) }
{
    let mut rest = count;
    'repeats: while rest > 3 {
        let repeat = rest.min(LONGEST_REPEAT);
        push_many(text, repeat, bits)?;
        rest -= repeat;
    }
    for _ in 0..rest {
        text.push(char::from(63 + bits))?;
    }
    Ok(())
}

/// Appends a repeat introducer with its count and its sixel.
#[inline(never)]
fn push_many(text: &mut String, count: usize, bits: u8) -> Result<(), AllocError>
    requires { bits < 64 }
    ensures { OnOk result
        (string_bytes text.new ≡ string_bytes text.old ++ spelling (Many count bits)) }
{
    text.push('!')?;
    push_number(text, count)?;
    text.push(char::from(63 + bits))
}
