// The record of a radix index as bytes: its fields read there, and the bytes written. The bytes are drawn in specs/Bytes.

#![tactic(auto)]

mod place;
mod write;

pub use place::{child_at, first_byte, key_at, label_len, len_at, next_at, root_of, value_at};
pub use write::build;

// Where the fields of a record stand in its bytes, and how many these are.
pub const LENS_AT: usize = 2;

pub const KEYS_AT: usize = 258;

pub const CHILDREN_AT: usize = 514;

pub const NEXTS_AT: usize = 1026;

pub const VALUES_AT: usize = 1538;

pub const LABELS_AT: usize = 2562;

pub const RECORD_BYTES: usize = 6658;
