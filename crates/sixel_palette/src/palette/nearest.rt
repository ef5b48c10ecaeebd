//! A search for the nearest entry of any color, by cubes of colors.
//!
//! An entry is left out of a cube if another one is nearer even to the cube's farthest corner:
//! branch and bound, as in [`buckets`](crate::palette::buckets). A cube's entries are listed when
//! the first of its colors is looked up.

ghost use Rattle.std.specs.Prelude.{◌≡◌, ◌+◌, ◌*◌, ◌/◌, ◌%◌, ◌<◌, ◌≤◌, ℕ, List, [], length, IfOk};
ghost use Rattle.std.specs.Prelude.{OnOk};
ghost use Rattle.sixel_palette.specs.declared.palette.nearest_entry.Entry.{Entry};
ghost use Rattle.sixel_palette.specs.Palette.{IsNearest, nearest};
ghost use Rattle.sixel_palette.specs.inside.{Codes.{color_of, code_count}, Keys.least_key};
ghost use Rattle.sixel_palette.specs.inside.Keys.{IsInCube, Appends, AreNumbered, HasNearest};
ghost use Rattle.sixel_palette.specs.inside.Keys.{AreLists, IsSearch, IsSearchOf, cube_position};
ghost use Rattle.sixel_palette.specs.inside.{Keys.group_position, Nearest.IsNearestEntry};

mod cube;

use crate::palette::colors::code_of;
use crate::palette::distance::distance_to;
use crate::palette::nearest::cube::{AT_ONCE, Cube, cube_around, group_around, key};
use crate::palette::nearest_entry::{Entry, NO_ENTRY, NearestEntry};
use crate::palette::nearest_indices::color_bytes;
use std::alloc::{AllocError, Global};

/// How many cubes there are. A side of a cube has 8 colors.
pub const CUBES: usize = 32_768;

/// How many groups of cubes there are. A side of a group has 32 colors.
const GROUPS: usize = 512;

/// The entries of a palette, and those that can be nearest in each group and cube.
#[derive(Drop)]
pub struct Search {
    pub entries: Vec<Entry>,
    pub groups: Lists,
    pub cubes: Lists,
}

/// Lists of entries, one after the other, and their spans, which are empty until filled.
#[derive(Drop)]
pub struct Lists {
    pub spans: Vec<Span>,
    pub entries: Vec<Entry>,
}

/// A range of positions.
#[derive(Clone, Copy)]
pub struct Span {
    pub start: usize,
    pub end: usize,
}

impl Search {
    /// A search among the entries of these colors.
    pub fn new(alloc: Global, colors: &[[u8; 3]]) -> Result<Search, AllocError>
        requires { length colors.now ≤ 256 }
        ensures { IfOk result (IsSearchOf colors.now) }
    {
        color_bytes(colors);
        let mut entries = Vec::with_capacity(alloc, colors.len())?;
        for index in 0..colors.len() {
            entries.push(Entry {
                color: colors[index],
                index: index as u8,
            })?;
        }
        let groups = Lists::new(alloc, GROUPS)?;
        let cubes = Lists::new(alloc, CUBES)?;
        Ok(Search {
            entries,
            groups,
            cubes,
        })
    }

    /// The entry nearest to a color, the first of equals.
    #[inline(always)]
    pub fn nearest_to(&mut self, color: [u8; 3]) -> Result<NearestEntry, AllocError>
        requires { IsSearch self.old }
        ensures search { OnOk result ((colors : List (List ℕ))
            → IsSearchOf colors self.old → IsSearchOf colors self.new) }
        ensures nearest { IfOk result (λ near. (colors : List (List ℕ)) → 0 < length colors
            → IsSearchOf colors self.old → IsNearest colors color near.index) }
        ensures squared { IfOk result (λ near. (colors : List (List ℕ))
            → IsSearchOf colors self.old → near.squared ≡ nearest colors color) }
    {
        let code = code_of(color);
        let near = self.nearest(code)?;
        Ok(near)
    }

    /// The nearest entry of the color of a code.
    #[inline(always)]
    pub fn nearest(&mut self, code: u32) -> Result<NearestEntry, AllocError>
        requires small { code < code_count }
        requires search { IsSearch self.old }
        ensures search { OnOk result (IsSearch self.new) }
        ensures entries { OnOk result (self.new.entries.items ≡ self.old.entries.items) }
        ensures nearest { IfOk result (λ near. (colors : List (List ℕ))
            → AreNumbered colors self.old.entries.items
            → IsNearestEntry colors (color_of code) near) }
    {
        let span = self.span_of(code)?;
        let key = least_key(&self.cubes.entries[span.start..span.end], code);
        Ok(NearestEntry {
            squared: key / 256,
            index: (key % 256) as u8,
        })
    }

    /// The span of the cube of a code, which is filled if it is not yet.
    #[inline(always)]
    fn span_of(&mut self, code: u32) -> Result<Span, AllocError>
        requires small { code < code_count }
        requires search { IsSearch self.old }
        ensures search { OnOk result (IsSearch self.new) }
        ensures entries { OnOk result (self.new.entries.items ≡ self.old.entries.items) }
        ensures nearest { IfOk result (HasNearest self.old.entries.items (color_of code)
            self.new.cubes) }
    {
        let span = self.cubes.spans[cube_position(code)];
        if span.start < span.end {
            return Ok(span);
        }
        self.fill_cube(code)
    }

    /// Fills the span of the cube of a code.
    #[inline(never)]
    fn fill_cube(&mut self, code: u32) -> Result<Span, AllocError>
        requires small { code < code_count }
        requires search { IsSearch self.old }
        ensures search { OnOk result (IsSearch self.new) }
        ensures entries { OnOk result (self.new.entries.items ≡ self.old.entries.items) }
        ensures nearest { IfOk result (HasNearest self.old.entries.items (color_of code)
            self.new.cubes) }
    {
        let group = self.group_of(code)?;
        let wider = &self.groups.entries[group.start..group.end];
        let filled = self
            .cubes
            .fill(cube_position(code), cube_around(code), wider)?;
        Ok(filled)
    }

    /// The span of the group of a code, which is filled if it is not yet.
    fn group_of(&mut self, code: u32) -> Result<Span, AllocError>
        requires small { code < code_count }
        requires search { IsSearch self.old }
        ensures search { OnOk result (IsSearch self.new) }
        ensures entries { OnOk result (self.new.entries.items ≡ self.old.entries.items) }
        ensures cubes { OnOk result (self.new.cubes ≡ self.old.cubes) }
        ensures order { IfOk result (λ span. span.start ≤ span.end) }
        ensures within { IfOk result (λ span. span.end ≤ length self.new.groups.entries.items) }
        ensures nearest { IfOk result (λ span. (other : ℕ) → other < code_count
            → group_position other ≡ group_position code
            → HasNearest self.old.entries.items (color_of other) self.new.groups span) }
    {
        let position = group_position(code);
        let span = self.groups.spans[position];
        if span.start < span.end {
            return Ok(span);
        }
        let filled = self
            .groups
            .fill(position, group_around(code), &self.entries)?;
        Ok(filled)
    }
}

impl Lists {
    /// Empty lists, `count` of them.
    fn new(alloc: Global, count: usize) -> Result<Lists, AllocError>
        ensures size { IfOk result (λ lists. length lists.spans.items ≡ count) }
        ensures lists { IfOk result (λ lists. (position : ℕ → ℕ) (entries : List Entry)
            → AreLists position entries lists) }
    {
        let spans = vec![in alloc; Span { start: 0, end: 0 }; count]?;
        Ok(Lists {
            spans,
            entries: Vec::new(alloc),
        })
    }

    /// Fills the span at a position with those of the entries that may be nearest in a cube.
    fn fill(&mut self, position: usize, cube: Cube, entries: &[Entry]) -> Result<Span, AllocError>
        requires { position < length self.old.spans.items }
        ensures size { OnOk result (length self.new.spans.items ≡ length self.old.spans.items) }
        ensures span { IfOk result (λ span. (c : List ℕ) → IsInCube cube c
            → HasNearest entries.now c self.new span) }
        ensures lists { OnOk result ((place : ℕ → ℕ) (all : List Entry)
            → ((code : ℕ) → code < code_count → place code ≡ position
            → IsInCube cube (color_of code))
            → ((code : ℕ) → code < code_count → place code ≡ position
            → least_key entries.now (color_of code) ≡ least_key all (color_of code))
            → AreLists place all self.old → AreLists place all self.new) }
    {
        let start = self.entries.len();
        push_nearest(&mut self.entries, &cube, entries)?;
        let span = Span {
            start,
            end: self.entries.len(),
        };
        self.spans[position] = span;
        Ok(span)
    }
}

/// The position of the cube of a code.
#[inline(always)]
fn cube_position(code: u32) -> usize
    requires { code < code_count }
    ensures value { result ≡ cube_position code }
    ensures small { result < 32768 }
{
    (code / 65536 / 8 * 1024 + code / 256 % 256 / 8 * 32 + code % 256 / 8) as usize
}

/// The position of the group of a code.
fn group_position(code: u32) -> usize
    requires { code < code_count }
    ensures value { result ≡ group_position code }
    ensures small { result < 512 }
{
    (code / 65536 / 32 * 64 + code / 256 % 256 / 32 * 8 + code % 256 / 32) as usize
}

/// Appends those of the entries that may be nearest to a color of the cube.
///
/// Each entry is stored, and the next one replaces it if it is not one of those. So no branch is
/// needed.
fn push_nearest(list: &mut Vec<Entry>, cube: &Cube, entries: &[Entry]) -> Result<(), AllocError>
    ensures { OnOk result (Appends entries.now cube.now list.old.items list.new.items) }
{
    let greatest = cube.greatest_key(entries);
    let mut end = list.len();
    list.extend_from_slice(entries)?;
    let mut keys = [0; AT_ONCE];
    for position in 0..entries.len() {
        if position % AT_ONCE == 0 {
            keys = cube.least_keys(entries, position);
        }
        list[end] = entries[position];
        end += usize::from(keys[position % AT_ONCE] <= greatest);
    }
    list.truncate(end);
    Ok(())
}

/// The least key of some entries for the color of a code.
#[inline(always)]
fn least_key(entries: &[Entry], code: u32) -> u32
    requires { code < code_count }
    ensures { result ≡ least_key entries.now (color_of code) }
{
    let mut least = 256 * NO_ENTRY;
    for entry in entries {
        least = key(distance_to(code, entry.color), entry.index).min(least);
    }
    least
}
