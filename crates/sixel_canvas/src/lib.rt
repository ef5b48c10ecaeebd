//! The canvases of a SIXEL decoder: one of rows that grow, and one of a band.
#![tactic(auto, using(std::proofs::lemmas::Bool::Decides::nat_tests))]

pub mod band;
pub mod band_canvas;
pub mod channels;
pub mod drawing;
pub mod final_rows;
mod pixel_row;
mod released_rows;
mod row;
mod row_band;
pub mod row_canvas;
mod six_rows;
mod span;
pub mod stored_rows;
mod tag;
pub mod tagged_band;
mod tagged_row;

pub use row::Row;
pub use span::fill_rgba_span;
