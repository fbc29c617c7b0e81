// Sorted entries: a finite map of up to 64 keys of 1 to 16 bytes, and its rows in a table. What an index answers is said on these entries
// alone, in specs/.

#![tactic(auto)]

ghost use Rattle.std.specs.Prelude.{◌≡◌};
ghost use Rattle.keys.specs.Answer.{number_of};

mod row;

pub use row::{append, is_key, is_row, no_rows, push, rank_of, row_len, with_row, without_row};

// Entries in order: n rows, the key of row i at 16 i.
#[derive(Clone, Copy)]
pub struct Table {
    pub n: usize,
    pub len: [u8; 64],
    pub val: [u32; 64],
    pub key: [u8; 1024],
}

// A key and its value: the first len bytes of key, and zeros after them.
#[derive(Clone, Copy)]
pub struct Neighbour {
    pub len: usize,
    pub value: u32,
    pub key: [u8; 16],
}

// Why an operation is refused, by the numbers of 01.
#[derive(Clone, Copy, PartialEq, Eq)]
pub enum Refusal {
    Damaged = 2,
    BadKey = 3,
    Full = 18,
}

impl Refusal {
    pub fn number(self) -> u32
        ensures { result ≡ number_of self }
    {
        self as u32
    }
}
