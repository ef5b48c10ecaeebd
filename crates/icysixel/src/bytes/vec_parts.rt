//! A vector with its pointer, length and capacity, for the module above.

ghost use Rattle.std.specs.{Mem.manually_drop_value, Prelude.{◌≡◌}, Vec.{vec_capacity, vec_len}};
ghost use Rattle.std.specs.Vec.{vec_ptr};

use std::alloc::Global;
use std::mem::ManuallyDrop;

/// A vector that is not dropped, beside its pointer, length and capacity.
pub struct VecParts {
    pub(super) at: *mut u8,
    pub(super) len: usize,
    pub(super) capacity: usize,
    pub(super) alloc: Global,
    pub(super) bytes: ManuallyDrop<Vec<u8>>,
    ghost begins: { at ≡ vec_ptr (manually_drop_value bytes) },
    ghost counts: { len ≡ vec_len (manually_drop_value bytes) },
    ghost holds: { capacity ≡ vec_capacity (manually_drop_value bytes) },
}

impl VecParts {
    pub fn of(alloc: Global, mut bytes: Vec<u8>) -> VecParts
        ensures { (manually_drop_value result.bytes).items ≡ bytes.items }
    {
        let at = bytes.as_mut_ptr();
        let len = bytes.len();
        let capacity = bytes.capacity();
        VecParts {
            at,
            len,
            capacity,
            alloc,
            bytes: ManuallyDrop::new(bytes),
        }
    }
}
