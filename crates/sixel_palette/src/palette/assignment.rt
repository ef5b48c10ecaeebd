//! The nearest entry of each color: the assignment step of Lloyd's algorithm.

ghost use Rattle.std.specs.Prelude.{◌≡◌, ◌+◌, ◌*◌, ◌<◌, ◌≤◌, length, IfOk};
ghost use Rattle.sixel_palette.specs.inside.Assignment.{IsAssignment, IsWeighed};
ghost use Rattle.sixel_palette.specs.inside.{Codes.AreColorCodes, Counts.{dot, counted_error}};
ghost use Rattle.sixel_palette.specs.inside.Traversal.{IsTraversal, HasRelaxed};

use crate::palette::farthest::Traversal;
use crate::palette::nearest::{CUBES, Search};
use std::alloc::{AllocError, Global};

/// How many entries are always relaxed one after the other.
const FEW: usize = 16;

/// Entries, each color's nearest one, and the summed squared error.
#[derive(Drop)]
pub struct Assignment {
    /// The entries.
    pub colors: Vec<[u8; 3]>,
    /// Each color's nearest entry.
    pub traversal: Traversal,
    /// The sum over all pixels of the squared distance to the nearest entry.
    pub error: u64,
}

/// Assigns each color to its nearest entry.
pub fn assign(
    alloc: Global,
    codes: &[u32],
    counts: &[u32],
    entries: &[[u8; 3]],
) -> Result<Assignment, AllocError>
    requires small { AreColorCodes codes.now }
    requires weighed { IsWeighed codes.now counts.now }
    requires few { length entries.now ≤ 256 }
    ensures colors { IfOk result (λ a. a.colors.items ≡ entries.now) }
    ensures assignment { IfOk result (IsAssignment codes.now) }
    ensures error { IfOk result (λ a.
        a.error ≡ counted_error entries.now codes.now counts.now) }
{
    let mut colors = Vec::with_capacity(alloc, entries.len())?;
    colors.extend_from_slice(entries)?;
    let traversal = nearest_among(alloc, codes, entries)?;
    let error = summed(counts, &traversal.squares);
    Ok(Assignment {
        colors,
        traversal,
        error,
    })
}

/// Returns each color's nearest entry.
///
/// It searches among more than 16 entries if there are more colors than cubes. Otherwise it relaxes
/// the colors by one entry after the other.
pub fn nearest_among(
    alloc: Global,
    codes: &[u32],
    colors: &[[u8; 3]],
) -> Result<Traversal, AllocError>
    requires small { AreColorCodes codes.now }
    requires few { length colors.now ≤ 256 }
    ensures whole { IfOk result (IsTraversal codes.now) }
    ensures relaxed { IfOk result (HasRelaxed colors.now codes.now) }
{
    if codes.len() > CUBES && colors.len() > FEW {
        searched(alloc, codes, colors)
    } else {
        Traversal::among(alloc, codes, colors)
    }
}

/// Each color's nearest entry, found by a search for each.
fn searched(alloc: Global, codes: &[u32], colors: &[[u8; 3]]) -> Result<Traversal, AllocError>
    requires small { AreColorCodes codes.now }
    requires few { length colors.now ≤ 256 }
    ensures whole { IfOk result (IsTraversal codes.now) }
    ensures relaxed { IfOk result (HasRelaxed colors.now codes.now) }
{
    let mut squares = Vec::with_capacity(alloc, codes.len())?;
    let mut indices = Vec::with_capacity(alloc, codes.len())?;
    let mut search = Search::new(alloc, colors)?;
    for code in codes {
        let near = search.nearest(*code)?;
        squares.push(near.squared)?;
        indices.push(near.index)?;
    }
    let traversal = Traversal::of(alloc, codes, squares, indices)?;
    Ok(traversal)
}

/// The sum of the products of counts and squared distances.
#[tactic(auto, using(crate::proofs::refinement::Sums::sums))]
#[inline(never)]
pub fn summed(counts: &[u32], squares: &[u32]) -> u64
    requires same { length counts.now ≡ length squares.now }
    requires small { dot counts.now squares.now < 18446744073709551616 }
    ensures { result ≡ dot counts.now squares.now }
{
    let mut sum = 0;
    for position in 0..counts.len() {
        sum += u64::from(counts[position]) * u64::from(squares[position]);
    }
    sum
}
