// The message store for C: store and state are lent bytes, and there is one function for each command. What each answers and leaves is
// said in specs/Run, `Meets`; what a host gets of an answer in specs/Export. What holds of whole lists of calls: proofs/Demands.

#![tactic(auto)]

mod consumers;
mod known;
mod messages;
mod reading;
mod replies;
mod snapshots;
mod telling;
