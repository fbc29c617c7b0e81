// The record of a radix index of up to 64 keys of 1 to 16 bytes: what it holds, and one made of a table. What each function answers is said
// in specs/.

#![tactic(auto)]

mod construction;
mod judge;

pub use construction::build;
pub use judge::leads;

// The record, drawn in specs/Record.antt.
#[derive(Clone, Copy)]
pub struct Index {
    pub root: u16,
    pub len: [u8; 256],
    pub key: [u8; 256],
    pub child: [u16; 256],
    pub next: [u16; 256],
    pub val: [u32; 256],
    pub label: [u8; 4096],
}
