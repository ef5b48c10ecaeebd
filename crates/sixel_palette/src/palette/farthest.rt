//! Gonzalez's farthest-first traversal: each entry is farthest from those before.
//!
//! It finds k centers whose greatest distance to a color is at most twice the least possible, hence
//! four times the least squared one. T. F. Gonzalez, "Clustering to minimize the maximum
//! intercluster distance", Theoretical Computer Science 38 (1985), 293-306.

ghost use Rattle.std.specs.{List.Sorted.IsStrictlyIncreasing, Prelude.{◌≡◌, ◌<◌, ◌≤◌, min, ℕ}};
ghost use Rattle.std.specs.Prelude.{List, [], ◌∷◌, ◌++◌, length, IfOk, slice_index};
ghost use Rattle.sixel_palette.specs.Palette.{nearest, IsFarthest, IsFarthestFirst};
ghost use Rattle.sixel_palette.specs.inside.Codes.{color_of, IsListed, AreColorCodes};
ghost use Rattle.sixel_palette.specs.{inside.Nearest.AreNearest, inside.Buckets.IsFirstGreatest};
ghost use Rattle.sixel_palette.specs.inside.Traversal.{IsTraversal, HasRelaxed};

use crate::palette::buckets::{Bucket, buckets_of, farthest_of, relax_buckets};
use crate::palette::colors::color_of;
use crate::palette::nearest_entry::{Entry, NO_ENTRY, squared_to_nearest};
use std::alloc::{AllocError, Global};

/// The entries, each color's nearest one, and the color that is then farthest.
#[derive(Drop)]
pub struct Selection {
    /// The entries.
    pub colors: Vec<[u8; 3]>,
    /// The palette index of each color's nearest entry.
    pub indices: Vec<u8>,
    /// The position of the color that is farthest from its nearest entry.
    pub farthest: usize,
}

/// Selects entries farthest first, at most `room` of the colors.
pub fn choose(alloc: Global, codes: &[u32], room: usize) -> Result<Selection, AllocError>
    requires ascending { IsStrictlyIncreasing codes.now }
    requires small { AreColorCodes codes.now }
    requires room { room ≤ 256 }
    ensures order { IfOk result (λ s. IsFarthestFirst (IsListed codes.now) s.colors.items) }
    ensures size { IfOk result (λ s. length s.colors.items ≡ min room (length codes.now)) }
    ensures nearest { IfOk result (λ s. (squares : List ℕ)
        × AreNearest s.colors.items codes.now squares s.indices.items) }
    ensures indices_len { IfOk result (λ s. length s.indices.items ≡ length codes.now) }
    ensures within { IfOk result (λ s. 0 < length codes.now → s.farthest < length codes.now) }
    ensures farthest { IfOk result (λ s. let color = color_of (slice_index codes.now s.farthest) in
        0 < length codes.now → IsFarthest (IsListed codes.now) s.colors.items color) }
{
    let count = room.min(codes.len());
    let mut colors = Vec::with_capacity(alloc, count)?;
    let mut traversal = Traversal::new(alloc, codes)?;
    let mut farthest = 0;
    for index in 0..count {
        let color = color_of(codes[farthest]);
        let entry = Entry {
            color,
            index: index as u8,
        };
        farthest = traversal.relax(codes, entry);
        colors.push(color)?;
    }
    Ok(Selection {
        colors,
        indices: traversal.indices,
        farthest,
    })
}

impl Selection {
    /// The greatest squared distance to a nearest entry, 0 if there is no color.
    pub fn error(&self, codes: &[u32]) -> u32
        requires small { AreColorCodes codes.now }
        requires within { 0 < length codes.now → self.now.farthest < length codes.now }
        ensures none { length codes.now ≡ 0 → result ≡ 0 }
        ensures farthest { 0 < length codes.now → result
            ≡ nearest self.now.colors.items (color_of (slice_index codes.now self.now.farthest)) }
    {
        if codes.is_empty() {
            return 0;
        }
        squared_to_nearest(&self.colors, color_of(codes[self.farthest]))
    }

    /// The entries and the farthest color, or none if all colors are entries.
    pub fn witnesses(&self, alloc: Global, codes: &[u32]) -> Result<Vec<[u8; 3]>, AllocError>
        requires small { AreColorCodes codes.now }
        requires within { 0 < length codes.now → self.now.farthest < length codes.now }
        ensures none { IfOk result (λ w.
            length codes.now ≤ length self.now.colors.items → w.items ≡ []) }
        ensures some { IfOk result (λ w.
            let color = color_of (slice_index codes.now self.now.farthest) in
            length self.now.colors.items < length codes.now
            → w.items ≡ self.now.colors.items ++ color ∷ []) }
    {
        let mut witnesses = Vec::new(alloc);
        if self.colors.len() < codes.len() {
            witnesses.extend_from_slice(&self.colors)?;
            witnesses.push(color_of(codes[self.farthest]))?;
        }
        Ok(witnesses)
    }
}

/// Each color's nearest entry so far, in two lists, and the buckets of the colors.
#[derive(Drop)]
pub struct Traversal {
    /// Each color's squared distance to its nearest entry.
    pub squares: Vec<u32>,
    /// The palette index of each color's nearest entry.
    pub indices: Vec<u8>,
    /// The buckets of the colors.
    pub buckets: Vec<Bucket>,
}

impl Traversal {
    /// A traversal without an entry.
    pub fn new(alloc: Global, codes: &[u32]) -> Result<Traversal, AllocError>
        requires small { AreColorCodes codes.now }
        ensures whole { IfOk result (IsTraversal codes.now) }
        ensures relaxed { IfOk result (HasRelaxed [] codes.now) }
    {
        let squares = vec![in alloc; NO_ENTRY; codes.len()]?;
        let indices = vec![in alloc; 0; codes.len()]?;
        let traversal = Traversal::of(alloc, codes, squares, indices)?;
        Ok(traversal)
    }

    /// A traversal of each color's nearest one among some entries, in order.
    pub fn among(alloc: Global, codes: &[u32], colors: &[[u8; 3]]) -> Result<Traversal, AllocError>
        requires small { AreColorCodes codes.now }
        requires few { length colors.now ≤ 256 }
        ensures whole { IfOk result (IsTraversal codes.now) }
        ensures relaxed { IfOk result (HasRelaxed colors.now codes.now) }
    {
        let mut traversal = Traversal::new(alloc, codes)?;
        for index in 0..colors.len() {
            let entry = Entry {
                color: colors[index],
                index: index as u8,
            };
            relax_buckets(
                codes,
                &mut traversal.squares,
                &mut traversal.indices,
                &mut traversal.buckets,
                entry,
            );
        }
        Ok(traversal)
    }

    /// A traversal of colors whose nearest entries are given.
    pub fn of(
        alloc: Global,
        codes: &[u32],
        squares: Vec<u32>,
        indices: Vec<u8>,
    ) -> Result<Traversal, AllocError>
        requires small { AreColorCodes codes.now }
        requires squares { length squares.items ≡ length codes.now }
        requires indices { length indices.items ≡ length codes.now }
        ensures whole { IfOk result (IsTraversal codes.now) }
        ensures squares { IfOk result (λ t. t.squares.items ≡ squares.items) }
        ensures indices { IfOk result (λ t. t.indices.items ≡ indices.items) }
    {
        let buckets = buckets_of(alloc, codes, &squares)?;
        Ok(Traversal {
            squares,
            indices,
            buckets,
        })
    }

    /// Relaxes the distances by one more entry, and returns the farthest position.
    pub fn relax(&mut self, codes: &[u32], entry: Entry) -> usize
        requires some { 0 < length codes.now }
        requires small { AreColorCodes codes.now }
        requires whole { IsTraversal codes.now self.old }
        ensures whole { IsTraversal codes.now self.new }
        ensures relaxed { (entries : List (List ℕ)) → length entries ≡ entry.index
            → HasRelaxed entries codes.now self.old
            → HasRelaxed (entries ++ entry.color ∷ []) codes.now self.new }
        ensures farthest { IsFirstGreatest self.new.squares.items result }
    {
        relax_buckets(
            codes,
            &mut self.squares,
            &mut self.indices,
            &mut self.buckets,
            entry,
        );
        farthest_of(codes, &self.squares, &self.buckets)
    }
}
