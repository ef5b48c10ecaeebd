//! How the rows of an image to encode lie in the caller's memory.

ghost use Rattle.std.specs.Prelude.{◌≡◌, ◌+◌, ◌*◌, ◌≤◌, IfOk, length};
ghost use Rattle.icysixel.specs.Rows.{extent, rows_of, wanted};

use std::alloc::{AllocError, Global};

/// How the rows of an image lie in the caller's memory.
#[derive(Clone, Copy)]
pub struct SourceLayout {
    /// The number of bytes from the start of a row to the start of the next.
    pub stride: usize,
    /// The number of bytes of a row.
    pub row_len: usize,
    /// The number of rows.
    pub height: usize,
}

impl SourceLayout {
    /// The number of bytes of all rows with their gaps.
    ///
    /// `None` if a row is longer than the stride, or no `usize` holds the number.
    pub fn byte_len(self) -> Option<usize>
        ensures { result ≡ wanted self.stride self.row_len self.height }
    {
        if self.stride < self.row_len {
            return None;
        }
        self.stride
            .checked_mul(self.height.saturating_sub(1))
            .and_then(|above| above.checked_add(self.row_len))
    }

    /// A copy of the rows without gaps.
    #[tactic(auto, unfolding(sixel_base::specs::Picture::joined))]
    pub fn gathered(self, alloc: Global, bytes: &[u8]) -> Result<Vec<u8>, AllocError>
        requires stride { self.row_len ≤ self.stride }
        requires within { extent self.stride self.row_len self.height ≤ length bytes.now }
        ensures rows { IfOk result (λ rows.
            rows.items ≡ rows_of self.stride self.row_len self.height bytes.now) }
        ensures size { IfOk result (λ rows. length rows.items ≡ self.row_len * self.height) }
    {
        let mut rows = Vec::new(alloc);
        for row in 0..self.height {
            let start = row * self.stride;
            rows.extend_from_slice(&bytes[start..start + self.row_len])?;
        }
        Ok(rows)
    }
}
