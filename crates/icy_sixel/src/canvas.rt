//! A row of the canvas, and the fill of a span, by [`sixel_canvas`].

pub use sixel_canvas::{Row, fill_rgba_span};
