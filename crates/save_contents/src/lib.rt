// The parts of a snapshot but the nodes: how many bytes each body takes, version, count and rows of the contents, the groups' bodies.
// The bytes are said in specs/Bytes of the crate snapshot, and the same by sizes in specs/Sizes.

#![tactic(auto)]

mod bodies;
mod table;

pub use bodies::{measure_groups, write_groups};
pub use table::{KEY_BYTES, ROW_BYTES, START_BYTES, file_size, write_table};

// How many groups there are, and how many bytes the body of each takes; zeros after them.
#[derive(Clone, Copy)]
pub struct GroupSizes {
    pub n: usize,
    pub size: [usize; 8],
}
