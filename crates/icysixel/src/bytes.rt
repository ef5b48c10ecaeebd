//! A block of memory that the library transfers to its caller: `icysixel_bytes` of the header.

ghost use Rattle.std.specs.{Mem.manually_drop_value, Prelude.{◌≡◌, ◌≤◌, ℕ, List, [], length}};
ghost use Rattle.icysixel.specs.{Blocks.IsNoBlock, inside.Bytes.bytes_own};

mod vec_parts;

use std::alloc::{Allocator, Global};
use std::marker::Model;
use std::mem;
use std::ptr::null_mut;
use vec_parts::VecParts;

/// A block with its length and capacity, and the ownership of it.
///
/// A capacity of 0 means that there is no block. Then the pointer is null in what C receives.
#[repr(C)]
#[derive(Drop)]
pub struct Bytes {
    pub at: *mut u8,
    pub len: usize,
    pub capacity: usize,
    alloc: Global,
    pub ghost items: { List ℕ },
    ghost fit: { (len ≡ length items) × (len ≤ capacity) },
}

impl Model for Bytes {
    ghost also_owns = { λ b. bytes_own b.alloc b.at b.len b.capacity b.items };
}

impl Bytes {
    /// No block.
    pub fn none(alloc: Global) -> Bytes
        ensures { (result.items ≡ []) × IsNoBlock result.at result.len result.capacity }
    {
        let at = null_mut();
        Bytes {
            at,
            len: 0,
            capacity: 0,
            alloc,
        }
    }

    /// The block of a vector, or none of a vector without bytes.
    pub fn of(alloc: Global, bytes: Vec<u8>) -> Bytes
        ensures items { result.items ≡ bytes.items }
        ensures empty { bytes.items ≡ [] → IsNoBlock result.at result.len result.capacity }
    {
        if bytes.is_empty() {
            return Bytes::none(alloc);
        }
        Bytes::of_parts(VecParts::of(alloc, bytes))
    }

    fn of_parts(parts: VecParts) -> Bytes
        ensures { result.items ≡ (manually_drop_value parts.bytes).items }
    {
        let VecParts {
            at,
            len,
            capacity,
            alloc,
            bytes: _,
        } = parts;
        Bytes {
            at,
            len,
            capacity,
            alloc,
        }
    }

    /// Frees the block, if there is one.
    pub fn free(self, alloc: &Global) {
        let Bytes {
            at,
            len: _,
            capacity,
            alloc: _,
        } = self;
        if capacity != 0 {
            unsafe { alloc.deallocate(at, capacity, 1) };
        }
    }
}

/// Frees a block that was transferred, if there is one.
#[unsafe(no_mangle)]
pub extern "C" fn icysixel_free_bytes(alloc: Global, bytes: &mut Bytes)
    ensures bytes { bytes.new.items ≡ [] }
    ensures none { IsNoBlock bytes.new.at bytes.new.len bytes.new.capacity }
{
    let none = Bytes::none(alloc);
    mem::replace(bytes, none).free(&alloc);
}
