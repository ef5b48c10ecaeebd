//! Entries on top of others, farthest first, with a certificate.

ghost use Rattle.std.specs.Prelude.{◌≡◌, ◌<◌, ◌≤◌, ◌++◌, ◌∷◌, [], length, All, IfOk};
ghost use Rattle.std.specs.List.Sorted.{IsStrictlyIncreasing};
ghost use Rattle.sixel_palette.specs.Refined.{IsRegisterColor, AreOnTop};
ghost use Rattle.sixel_palette.specs.inside.{Assignment.IsAssignment, Codes.AreColorCodes};
ghost use Rattle.sixel_palette.specs.inside.{Codes.IsListed, Traversal.{IsTraversal, HasRelaxed}};

use crate::palette::assignment::Assignment;
use crate::palette::buckets::farthest_of;
use crate::palette::colors::color_of;
use crate::palette::farthest::Traversal;
use crate::palette::nearest_entry::Entry;
use crate::palette::register_color::register_color;
use std::alloc::{AllocError, Global};

/// The greatest squared distance at which a color needs no entry of its own.
///
/// Percentages move an entry by at most 3.
const NEAR_ENOUGH: u32 = 6;

/// Entries, some of them on top, and each color's nearest one.
#[derive(Drop)]
pub struct Topped {
    /// The entries.
    pub colors: Vec<[u8; 3]>,
    /// The colors that the entries on top are for, and then the farthest color.
    pub witnesses: Vec<[u8; 3]>,
    /// Each color's nearest entry.
    pub traversal: Traversal,
}

/// Adds entries up to `room`, each for the color farthest from those before it.
pub fn add_farthest(
    alloc: Global,
    codes: &[u32],
    assignment: Assignment,
    room: usize,
) -> Result<Topped, AllocError>
    requires ascending { IsStrictlyIncreasing codes.now }
    requires small { AreColorCodes codes.now }
    requires room { room ≤ 256 }
    requires assignment { IsAssignment codes.now assignment }
    requires few { length assignment.colors.items ≤ room }
    requires shown { All IsRegisterColor assignment.colors.items }
    ensures whole { IfOk result (λ t. IsTraversal codes.now t.traversal) }
    ensures relaxed { IfOk result (λ t. HasRelaxed t.colors.items codes.now t.traversal) }
    ensures few { IfOk result (λ t. length t.colors.items ≤ room) }
    ensures shown { IfOk result (λ t. All IsRegisterColor t.colors.items) }
    ensures top { IfOk result (λ t. AreOnTop (IsListed codes.now) room assignment.colors.items
        t.colors.items t.witnesses.items) }
{
    let mut colors = assignment.colors;
    let mut traversal = assignment.traversal;
    let mut witnesses = Vec::new(alloc);
    if codes.is_empty() {
        return Ok(Topped {
            colors,
            witnesses,
            traversal,
        });
    }
    let mut farthest = farthest_of(codes, &traversal.squares, &traversal.buckets);
    for index in colors.len()..room {
        if traversal.squares[farthest] <= NEAR_ENOUGH {
            break;
        }
        let color = color_of(codes[farthest]);
        let entry = Entry {
            color: register_color(color),
            index: index as u8,
        };
        farthest = traversal.relax(codes, entry);
        witnesses.push(color)?;
        colors.push(entry.color)?;
    }
    Ok(Topped {
        colors,
        witnesses: with_farthest(witnesses, color_of(codes[farthest]))?,
        traversal,
    })
}

/// Adds the farthest color to the witnesses, if there are any.
fn with_farthest(witnesses: Vec<[u8; 3]>, farthest: [u8; 3]) -> Result<Vec<[u8; 3]>, AllocError>
    ensures none { IfOk result (λ w. length witnesses.items ≡ 0 → w.items ≡ []) }
    ensures some { IfOk result (λ w. 0 < length witnesses.items
        → w.items ≡ witnesses.items ++ farthest ∷ []) }
{
    let mut all = witnesses;
    if !all.is_empty() {
        all.push(farthest)?;
    }
    Ok(all)
}
