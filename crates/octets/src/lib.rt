// Byte slices: numbers at a place, copy, fill, move, splice, compare.
// What each answers is said in specs/: Bytes, Place, Compare.

#![tactic(auto)]

ghost use Rattle.std.specs.Prelude.{◌≡◌, ◌<◌};

mod comparison;
mod number;
mod place;

pub use comparison::{all_zero_from, comes_before, compare, equal};
pub use number::{read_be, read_le, write_be, write_le};
pub use place::{copy_in, move_within, splice, zero};

// A byte as a wider number, with its range.
pub fn wide(x: u8) -> u64
    ensures { (result ≡ x) × (result < 256) }
{
    x as u64
}

// A byte as a place or a length, with its range.
pub fn wide_place(x: u8) -> usize
    ensures { (result ≡ x) × (result < 256) }
{
    x as usize
}
