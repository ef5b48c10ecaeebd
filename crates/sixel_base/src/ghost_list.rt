//! A list that only proofs read.
//!
//! A list has no size and owns nothing. Its calls do nothing when they run: each makes a
//! [`Snapshot`] of a chain that no memory stores.

ghost use Rattle.std.specs.Prelude.{◌≡◌, [], ◌∷◌, ◌++◌};

use std::marker::Model;
use std::snapshot::Snapshot;

/// A list that only proofs read. Contracts see its elements.
#[cycle(ghost_list)]
#[derive(Drop)]
pub struct GhostList<T> {
    chain: Snapshot<Chain<T>>,
}

/// The last element of a list, and the list before it.
#[cycle(ghost_list)]
#[derive(Drop)]
enum Chain<T> {
    Empty,
    More(Snapshot<GhostList<T>>, T),
}

impl<T> Model for GhostList<T> {
    ghost use Rattle.std.specs.Prelude.{List, length};

    ghost Value = { List T };

    ghost use Rattle.sixel_base.specs.inside.GhostList.{elements};

    ghost view = { λ list. elements list.chain.value };

    ghost size = { length };

    ghost use Rattle.std.proofs.Common.{arith, length-append};

    ghost size_decreases = { λ list is. Prim.grind (arith, length-append) };
}

impl<T: Drop> GhostList<T> {
    /// Creates an empty list.
    pub fn new() -> GhostList<T>
        ensures { result ≡ [] }
    {
        GhostList {
            chain: Snapshot::of(&Chain::Empty),
        }
    }

    /// Adds an element at the end.
    pub fn push(&mut self, element: T)
        ensures { self.new ≡ self.old ++ element ∷ [] }
    {
        let longer = Chain::More(Snapshot::of(self), element);
        self.chain = Snapshot::of(&longer);
    }
}

impl<T: Copy> GhostList<T> {
    /// Adds elements at the end.
    pub fn extend(&mut self, elements: &[T])
        ensures { self.new ≡ self.old ++ elements.now }
    {
        'elements: for element in elements {
            self.push(*element);
        }
    }
}
