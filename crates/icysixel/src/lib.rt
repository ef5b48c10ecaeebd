//! The C library: the decoder and the encoder of `icy_sixel` behind a handle.
//!
//! `include/icysixel.h` documents it for C. A file has the name of a call, of a struct or of a
//! group of calls in it. A zeroed handle is valid and empty, so every function can be called on it,
//! also after it was freed.
#![tactic(auto, using(std::proofs::lemmas::Bool::Decides::nat_tests))]

pub mod bytes;
pub mod choose_palette;
mod code;
pub mod count_colors;
pub mod decode;
pub mod encode;
pub mod encoding;
pub mod format;
pub mod handle;
pub mod layout;
pub mod palette_indices;
pub mod progress;
pub mod refine_palette;
pub mod registers;
pub mod rows;
pub mod settings;
pub mod shape;
mod source_layout;
mod state;
mod state_pointer;
pub mod stored_image;
pub mod stream;
pub mod strerror;
pub mod version;
