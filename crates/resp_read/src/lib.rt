// Replies in RESP2 (02, CR 4), read strictly and in place: one pass, nothing kept. What each function answers is said in specs/.

#![tactic(auto)]

mod entry;
mod message;
mod part;
mod reading;

pub use message::{Picked, message_at};
pub use reading::{ReplyRead, read};
