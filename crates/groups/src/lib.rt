// One consumer group in its region of the state, 7,220 lent bytes. The bytes are drawn in specs/Bytes, the group and its rules said
// in specs/Group, what is read of a region in specs/Parse, what each function answers in specs/Answer.

#![tactic(auto)]

use id::Id;

// Where the parts of a region begin and how long they are: the definitions of the same names in specs/Group and specs/Bytes.
pub const LONGEST_NAME: usize = 16;

pub const MOST_CONSUMERS: usize = 16;

pub const MOST_PENDING: usize = 256;

pub const REGION_BYTES: usize = 7220;

pub const DELIVERED_AT: usize = 17;

pub const CONSUMERS_AT: usize = 33;

pub const FIELDS_AT: usize = 34;

pub const FIELD_BYTES: usize = 17;

pub const PENDING_AT: usize = 306;

pub const ENTRIES_AT: usize = 308;

pub const ENTRY_BYTES: usize = 27;

// In an entry: its consumer's place, time and count.
pub const PLACE_AT: usize = 16;

pub const TIME_AT: usize = 17;

pub const COUNT_AT: usize = 25;

mod judging;
mod reading;

pub use judging::{entries_rise, is_region};
pub use reading::{
    consumer_count, delivered, find_consumer, find_pending, next_pending, pending_count, spot_of,
};

// A name's place among the consumers, or the place that it would get. No Result: neither is an error.
#[derive(Clone, Copy)]
pub enum Spot {
    Known(usize),
    New(usize),
}

// A pending entry that was found by its ID.
#[derive(Clone, Copy)]
pub struct PendingEntry {
    pub place: usize,
    pub consumer: usize,
    pub time: u64,
    pub count: u64,
}

// A consumer's next entry.
#[derive(Clone, Copy)]
pub struct NextEntry {
    pub id: Id,
    pub time: u64,
    pub count: u64,
}
