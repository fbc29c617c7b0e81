// The listpack encoding: strings as elements, a strict reader and a writer. What each function answers is said in specs/.

#![tactic(auto)]

mod cursor;
mod form;
mod header;
mod is;
mod known;
mod read;
mod size;
mod strict;
mod value;
mod write;

pub use cursor::{Cursor, end_at};
pub use header::{read_count, read_total, write_header};
pub use known::{
    is_end, known_element, known_end, known_integer, known_is, known_size, known_small,
    known_start, known_text, same_element,
};
pub use size::{element_size, integer_size};
pub use strict::{Numeral, is_small, read_number, strings_end};
pub use value::{Number, known_number, known_stored};
pub use write::{put_end, write_integer, write_string};

// One element: an integer as its 64-bit pattern, or a text that lies at `start`, `len` bytes long; `size` is the element's.
#[derive(Clone, Copy)]
pub enum Element {
    Integer {
        pattern: u64,
        size: usize,
    },
    Text {
        start: usize,
        len: usize,
        size: usize,
    },
}
