//! A row of the canvas, which doubles its capacity if it is too small.
ghost use Rattle.std.specs.Prelude.{◌≡◌, ◌+◌, ◌-◌, ◌*◌, ◌^◌, ◌<◌, ◌≤◌, ◌==◌, ◌++◌, length};
ghost use Rattle.std.specs.Prelude.{slice_index_or, vec_len, vec_capacity, max, nat_lt};
ghost use Rattle.std.specs.Prelude.{if◌then◌else◌, IfErr, IsOk, OnErr, OnOk};
ghost use Rattle.sixel_base.specs.{Limits.side_limit, Picture.joined};
ghost use Rattle.sixel_base.specs.declared.error.SixelError.TheVariants.{OutOfMemory};
ghost use Rattle.sixel_canvas.specs.Row.{IsThrifty, empty_row, painted, reached_to, room_for};

use crate::span::{AllocResult, add_pixels, paint_pixels};
use sixel_base::limits::MAX_SIDE;
use sixel_base::{Result, SixelError};
use std::alloc::Global;
use std::marker::Model;

/// A row of a canvas: its pixels up to the last column that was drawn on.
///
/// What lies further right is background that is not written yet. Contracts see the background,
/// the list of pixels, the capacity and the writes.
#[derive(Drop)]
pub struct Row {
    bytes: Vec<u8>,
    room: usize,
    writes: u64,
    background: [u8; 4],
}

impl Model for Row {
    ghost use Rattle.std.specs.Prelude.{◌≡◌, ◌*◌, ◌≤◌, length, vec_capacity};
    ghost use Rattle.sixel_canvas.specs.Row.{RowState, IsThrifty, row_state};
    ghost use Rattle.sixel_canvas.specs.inside.Pixels.{pixels_of};

    ghost Value = { RowState };

    ghost view = { λ row.
        row_state row.background (pixels_of row.bytes.items) row.room row.writes };

    ghost invariant = { λ row. (4 * row.room ≤ vec_capacity row.bytes)
        × (length row.bytes.items ≡ 4 * length (pixels_of row.bytes.items))
        × IsThrifty (row_state row.background (pixels_of row.bytes.items) row.room row.writes) };
}

impl Row {
    /// Returns a row with no pixel. It does not allocate.
    pub fn new(alloc: Global, background: [u8; 4]) -> Row
        ensures empty { result ≡ empty_row background }
        ensures thrifty { IsThrifty result }
    {
        Row {
            bytes: Vec::new(alloc),
            room: 0,
            writes: 0,
            background,
        }
    }

    /// Adds background until the row has `columns` columns, if it has fewer.
    ///
    /// If they exceed the capacity, it becomes the greater of the columns and twice the capacity,
    /// the latter at most a million, and the pixels move. Only then can an allocation fail.
    pub fn reach(&mut self, columns: usize) -> Result<()>
        requires { columns ≤ 1000000 }
        ensures ok { OnOk result (self.new ≡ reached_to columns self.old) }
        ensures held { columns ≤ length self.old.pixels → self.new ≡ self.old }
        ensures within_room { columns ≤ self.old.room → IsOk result }
        ensures refused { OnErr result (self.new ≡ self.old) }
        ensures error { IfErr result (λ e. e ≡ OutOfMemory) }
        ensures thrifty { IsThrifty self.new }
    {
        self.grow(columns).map_err(SixelError::from)
    }

    /// Gives one color to the columns from `from` up to before `to`.
    pub fn paint(&mut self, from: usize, to: usize, color: [u8; 4])
        requires ordered { from ≤ to }
        requires held { to ≤ length self.old.pixels }
        ensures after { self.new ≡ painted from to color self.old }
        ensures thrifty { IsThrifty self.new }
    {
        paint_pixels(&mut self.bytes, from, to, color);
    }

    /// Returns how many pixels the row has.
    pub fn len(&self) -> usize
        ensures value { result ≡ length self.now.pixels }
        ensures thrifty { IsThrifty self.now }
    {
        self.bytes.len() / 4
    }

    /// Whether the row has no pixel.
    pub fn is_empty(&self) -> bool
        ensures value { result ≡ (length self.now.pixels == 0) }
        ensures thrifty { IsThrifty self.now }
    {
        self.bytes.is_empty()
    }

    /// Returns for how many pixels the row has capacity.
    pub fn room(&self) -> usize
        ensures value { result ≡ self.now.room }
        ensures thrifty { IsThrifty self.now }
    {
        self.room
    }

    /// Returns how many pixels were copied or filled to grow the row.
    ///
    /// Painting does not count.
    pub fn writes(&self) -> u64
        ensures value { result ≡ self.now.writes }
        ensures thrifty { IsThrifty self.now }
    {
        self.writes
    }

    /// Adds background as [`Row::reach`] does.
    pub(crate) fn grow(&mut self, columns: usize) -> AllocResult<()>
        requires { columns ≤ side_limit }
        ensures ok { OnOk result (self.new ≡ reached_to columns self.old) }
        ensures held { columns ≤ length self.old.pixels → self.new ≡ self.old }
        ensures within_room { columns ≤ self.old.room → IsOk result }
        ensures refused { OnErr result (self.new ≡ self.old) }
        ensures thrifty { IsThrifty self.new }
    {
        let len = self.len();
        if columns <= len {
            return Ok(());
        }
        let room = room_after(self.room, columns);
        let written = written_to_grow(len, self.room, columns);
        reserve(&mut self.bytes, room)?;
        let _added = add_pixels(&mut self.bytes, columns - len, self.background);
        self.room = room;
        self.writes += written as u64;
        Ok(())
    }

    /// The pixel of this column, background where the row is short.
    #[tactic(auto, using(crate::proofs::PixelLists::pixel_bytes))]
    pub(crate) fn pixel(&self, column: usize) -> [u8; 4]
        ensures value { result ≡ slice_index_or self.now.pixels column self.now.background }
        ensures thrifty { IsThrifty self.now }
    {
        if column >= self.len() {
            return self.background;
        }
        let at = 4 * column;
        [
            self.bytes[at],
            self.bytes[at + 1],
            self.bytes[at + 2],
            self.bytes[at + 3],
        ]
    }

    /// Appends `count` pixels from `from` on, with background where the row is short.
    pub(crate) fn pack(&self, bytes: &mut Vec<u8>, from: usize, count: usize) -> AllocResult<()>
        requires { vec_len bytes.old + 4 * count < 2 ^ 63 }
        ensures ok { OnOk result (bytes.new.items ≡ bytes.old.items ++ joined (λ k.
            slice_index_or self.now.pixels (from + k) self.now.background) count) }
        ensures len { OnOk result (vec_len bytes.new ≡ vec_len bytes.old + 4 * count) }
    {
        let begin = from.min(self.len());
        let held = count.min(self.len() - begin);
        bytes.extend_from_slice(&self.bytes[4 * begin..4 * (begin + held)])?;
        add_pixels(bytes, count - held, self.background)
    }
}

/// Returns the capacity of a row of capacity `room` after it grew to `columns`.
fn room_after(room: usize, columns: usize) -> usize
    requires side { room ≤ side_limit }
    ensures { result ≡ room_for columns room }
{
    if columns <= room {
        return room;
    }
    columns.max(MAX_SIDE.min(2 * room))
}

/// Returns how many pixels are copied or filled as a row grows to `columns`.
fn written_to_grow(len: usize, room: usize, columns: usize) -> usize
    requires { len ≤ columns }
    ensures { result ≡ columns - len + (if nat_lt room columns then len else 0) }
{
    let moved = if columns > room { len } else { 0 };
    columns - len + moved
}

/// Allocates memory for `room` pixels.
fn reserve(bytes: &mut Vec<u8>, room: usize) -> AllocResult<()>
    requires side { room ≤ side_limit }
    requires held { vec_len bytes.old ≤ 4 * room }
    ensures enough { OnOk result (4 * room ≤ vec_capacity bytes.new) }
    ensures within { 4 * room ≤ vec_capacity bytes.old → IsOk result }
    ensures items { bytes.new.items ≡ bytes.old.items }
    ensures exact { OnOk result
        (vec_capacity bytes.new ≡ max (vec_capacity bytes.old) (4 * room)) }
    ensures never_less { vec_capacity bytes.old ≤ vec_capacity bytes.new }
{
    bytes.reserve_exact(4 * room - bytes.len())
}
