// Changes of a consumer group in its region: deliver, acknowledge, claim, drop a consumer.
// What each answers and leaves is said in specs/Change, the operations on a group in the crate groups, specs/Step.

#![tactic(auto)]

mod commands;
mod consumers;
mod entries;
mod pieces;

pub use commands::{acknowledge, check_delivery, claim, deliver, deliver_all, drop_consumer};
