// What a sound region's group has: its parts, a consumer's place, an ID's entry, a consumer's next entry.

ghost use Rattle.std.specs.Prelude.{◌≡◌, [], ◌+◌, ◌≤◌, ◌<◌, length, drop, get_or, eqb};
ghost use Rattle.octets.specs.Pick.{both};
ghost use Rattle.id.specs.Id.{below};
ghost use Rattle.groups.specs.Group.{most_consumers, most_pending};
ghost use Rattle.groups.specs.Bytes.{entry_bytes, place_at};
ghost use Rattle.groups.specs.Parse.{entry_id, group_in};
ghost use Rattle.groups.specs.Step.{next_pending};
ghost use Rattle.groups.specs.Answer.{SoundRegion, spot_from, place_in, held_in, entry_given};

use crate::{
    CONSUMERS_AT, COUNT_AT, DELIVERED_AT, ENTRIES_AT, ENTRY_BYTES, FIELD_BYTES, FIELDS_AT,
    NextEntry, PENDING_AT, PLACE_AT, PendingEntry, Spot, TIME_AT,
};
use id::Id;
use std::cmp::Ordering;

pub fn delivered(region: &[u8]) -> Id
    requires { SoundRegion region.now }
    ensures { result ≡ (group_in region.now).delivered }
{
    id::read_id(region, DELIVERED_AT)
}

pub fn consumer_count(region: &[u8]) -> usize
    requires { SoundRegion region.now }
    ensures { (result ≡ length (group_in region.now).consumers) × (result ≤ most_consumers) }
{
    octets::wide(region[CONSUMERS_AT]) as usize
}

pub fn pending_count(region: &[u8]) -> usize
    requires { SoundRegion region.now }
    ensures { (result ≡ length (group_in region.now).pending) × (result ≤ most_pending) }
{
    octets::read_le(region, PENDING_AT, 2) as usize
}

// The names rise, so the search ends at the first that is not below.
pub fn spot_of(region: &[u8], name: &[u8]) -> Spot
    requires { SoundRegion region.now }
    ensures { result ≡ spot_from 0 name.now (group_in region.now).consumers }
{
    let count = consumer_count(region);
    let mut at = FIELDS_AT;
    for k in 0..count {
        let n = octets::wide(region[at]) as usize;
        match octets::compare(name, &region[at + 1..at + 1 + n]) {
            Ordering::Less => return Spot::New(k),
            Ordering::Equal => return Spot::Known(k),
            Ordering::Greater => {}
        }
        at += FIELD_BYTES;
    }
    Spot::New(count)
}

pub fn find_consumer(region: &[u8], name: &[u8]) -> Option<usize>
    requires { SoundRegion region.now }
    ensures { result ≡ place_in name.now (group_in region.now).consumers }
{
    match spot_of(region, name) {
        Spot::Known(k) => Some(k),
        Spot::New(_) => None,
    }
}

pub fn find_pending(region: &[u8], id: Id) -> Option<PendingEntry>
    requires { SoundRegion region.now }
    ensures { result ≡ held_in id (group_in region.now) }
{
    let mut at = ENTRIES_AT;
    let count = pending_count(region);
    for k in 0..count {
        if id::read_id(region, at).is_same(id) {
            let consumer = octets::wide(region[at + PLACE_AT]) as usize;
            let time = octets::read_le(region, at + TIME_AT, 8);
            let count = octets::read_le(region, at + COUNT_AT, 2);
            return Some(PendingEntry {
                place: k,
                consumer,
                time,
                count,
            });
        }
        at += ENTRY_BYTES;
    }
    None
}

// Is the entry that consumer's, and above the ID?
fn is_next(region: &[u8], at: usize, consumer: usize, after: Id) -> bool
    requires { at + entry_bytes ≤ length region.now }
    ensures { result ≡ both (eqb (get_or (drop at region.now) place_at 0) consumer) (below after (entry_id (drop at region.now))) }
{
    let place = octets::wide(region[at + PLACE_AT]) as usize;
    if place != consumer {
        return false;
    }
    after.is_below(id::read_id(region, at))
}

// The next entry of the consumer at a place.
fn next_of(region: &[u8], consumer: usize, after: Id) -> Option<NextEntry>
    requires { SoundRegion region.now × (consumer < length (group_in region.now).consumers) }
    ensures { entry_given (get_or (group_in region.now).consumers consumer []) result ≡ next_pending (get_or (group_in region.now).consumers consumer []) after (group_in region.now) }
{
    let mut at = ENTRIES_AT;
    let count = pending_count(region);
    for _ in 0..count {
        if is_next(region, at, consumer, after) {
            let id = id::read_id(region, at);
            let time = octets::read_le(region, at + TIME_AT, 8);
            let count = octets::read_le(region, at + COUNT_AT, 2);
            return Some(NextEntry { id, time, count });
        }
        at += ENTRY_BYTES;
    }
    None
}

pub fn next_pending(region: &[u8], consumer: &[u8], after: Id) -> Option<NextEntry>
    requires { SoundRegion region.now }
    ensures { entry_given consumer.now result ≡ next_pending consumer.now after (group_in region.now) }
{
    let k = find_consumer(region, consumer)?;
    next_of(region, k, after)
}
