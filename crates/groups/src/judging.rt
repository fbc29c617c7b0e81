// Is a region that of a group? Each test answers what specs/Parse says of the bytes from its place on.

ghost use Rattle.std.specs.Prelude.{◌≡◌, ◌+◌, ◌*◌, ◌≤◌, length, drop, []};
ghost use Rattle.octets.specs.Pick.{pick, both};
ghost use Rattle.id.specs.Id.{least, at_most};
ghost use Rattle.groups.specs.Group.{pending_up_to};
ghost use Rattle.groups.specs.Bytes.{field_bytes, entry_bytes, region_size};
ghost use Rattle.groups.specs.Parse.{is_field, are_fields, is_entry, are_entries, group_in, names_pass, entries_pass, is_region};

use crate::{
    CONSUMERS_AT, COUNT_AT, DELIVERED_AT, ENTRIES_AT, ENTRY_BYTES, FIELD_BYTES, FIELDS_AT,
    LONGEST_NAME, MOST_CONSUMERS, MOST_PENDING, PENDING_AT, PLACE_AT, REGION_BYTES,
};
use id::Id;

// A name of 1 to 16 bytes, and zeros.
fn is_field(s: &[u8], at: usize) -> bool
    requires { at + field_bytes ≤ length s.now }
    ensures { result ≡ is_field (drop at s.now) }
{
    let n = octets::wide(s[at]) as usize;
    if n < 1 {
        return false;
    }
    if LONGEST_NAME < n {
        return false;
    }
    octets::all_zero_from(&s[at + 1 + n..at + FIELD_BYTES], 0)
}

// So many fields whose names rise.
fn fields_rise(s: &[u8], at: usize, count: usize) -> bool
    requires { at + count * field_bytes ≤ length s.now }
    ensures { result ≡ are_fields [] count (drop at s.now) }
{
    let mut i = at;
    let mut above: &[u8] = b"";
    for _ in 0..count {
        if !is_field(s, i) {
            return false;
        }
        let n = octets::wide(s[i]) as usize;
        let name = &s[i + 1..i + 1 + n];
        if !octets::comes_before(above, name) {
            return false;
        }
        above = name;
        i += FIELD_BYTES;
    }
    true
}

fn is_entry(s: &[u8], at: usize, consumers: usize, above: Id, most: Id) -> bool
    requires { at + entry_bytes ≤ length s.now }
    ensures { result ≡ is_entry consumers above most (drop at s.now) }
{
    let place = octets::wide(s[at + PLACE_AT]) as usize;
    if consumers <= place {
        return false;
    }
    if octets::read_le(s, at + COUNT_AT, 2) < 1 {
        return false;
    }
    let id = id::read_id(s, at);
    if !above.is_below(id) {
        return false;
    }
    id.is_at_most(most)
}

// So many entries with rising IDs. A body of a snapshot is tested by it too.
pub fn entries_rise(s: &[u8], at: usize, count: usize, consumers: usize, most: Id) -> bool
    requires { at + count * entry_bytes ≤ length s.now }
    ensures { result ≡ are_entries consumers least most count (drop at s.now) }
{
    let mut above = Id::LEAST;
    let mut i = at;
    for _ in 0..count {
        if !is_entry(s, i, consumers, above, most) {
            return false;
        }
        above = id::read_id(s, i);
        i += ENTRY_BYTES;
    }
    true
}

fn names_pass(s: &[u8]) -> bool
    requires { length s.now ≡ region_size }
    ensures { result ≡ names_pass s.now }
{
    let n = octets::wide(s[CONSUMERS_AT]) as usize;
    if MOST_CONSUMERS < n {
        return false;
    }
    if !fields_rise(s, FIELDS_AT, n) {
        return false;
    }
    octets::all_zero_from(&s[FIELDS_AT + n * FIELD_BYTES..PENDING_AT], 0)
}

fn lesser(a: Id, b: Id) -> Id
    ensures { result ≡ pick (at_most a b) a b }
{
    if a.is_at_most(b) {
        return a;
    }
    b
}

// The entries, none of them above the last ID: one limit, the lesser of it and the last delivered ID, serves both rules in one walk.
fn entries_pass(s: &[u8], last: Id) -> bool
    requires { length s.now ≡ region_size }
    ensures { result ≡ both (entries_pass s.now) (pending_up_to last (group_in s.now).pending) }
{
    let n = octets::read_le(s, PENDING_AT, 2) as usize;
    if MOST_PENDING < n {
        return false;
    }
    let consumers = octets::wide(s[CONSUMERS_AT]) as usize;
    let most = lesser(id::read_id(s, DELIVERED_AT), last);
    if !entries_rise(s, ENTRIES_AT, n, consumers, most) {
        return false;
    }
    octets::all_zero_from(&s[ENTRIES_AT + n * ENTRY_BYTES..REGION_BYTES], 0)
}

// The region of a group that keeps the rules, with no pending ID above the last ID.
pub fn is_region(s: &[u8], last: Id) -> bool
    requires { length s.now ≡ region_size }
    ensures { result ≡ both (is_region s.now) (pending_up_to last (group_in s.now).pending) }
{
    if !is_field(s, 0) {
        return false;
    }
    if !names_pass(s) {
        return false;
    }
    entries_pass(s, last)
}
