//! Hosts of the library: the code of docs/USING.md, and two callers with contracts.
//!
//! `host` stores its receiver in a struct, and `chunks` feeds sessions. Both are proved from the
//! library's contracts alone.
#![tactic(auto)]

pub mod chunks;
pub mod host;
pub mod in_one_call;
pub mod lists;
pub mod multiplexer;
pub mod palettes;
pub mod rows;
pub mod streaming;
pub mod terminal;
#[cfg(test)]
mod tests;
pub mod viewer;
