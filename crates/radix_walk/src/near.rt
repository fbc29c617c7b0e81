// The first key at or above a key and the last at or below it, by walks down the tree: one along the key's path, which keeps the last
// node that lies on the wanted side, and one from there to its first or last key.

ghost use Rattle.std.specs.Prelude.{◌≡◌, [], ◌++◌, ◌+◌, ◌*◌, ◌-◌, ◌<◌, ◌≤◌, length, take, get_or, eqb, option_map};
ghost use Rattle.octets.specs.Pick.{pick};
ghost use Rattle.octets.specs.Place.{area};
ghost use Rattle.octets.specs.Compare.{order_of};
ghost use Rattle.keys.specs.Entries.{entry};
ghost use Rattle.keys.specs.Answer.{near_of};
ghost use Rattle.radix.specs.Record.{leads_on, value_of, tree_at};
ghost use Rattle.radix.specs.Walk.{own_of, first_in, last_in};
ghost use Rattle.radix_bytes.specs.Bytes.{record_size, pool_in};
ghost use Rattle.radix_walk.specs.Neighbours.{cut_key, stop_at, least_from, greatest_from, StopsAbove, StopsBelow, LastOf};

use keys::Neighbour;
use radix_bytes::LABELS_AT;
use std::cmp::Ordering;

// Where a walk goes on: a link, how many bytes of the key lead there, and how many nodes it may still go down. Link 0 leads nowhere, as in
// the record, so there is no Option of it.
#[derive(Clone, Copy)]
pub struct Stop {
    pub at: usize,
    pub lead: usize,
    pub left: usize,
}

// A label beside as many bytes of the key from i on.
fn side(s: &[u8], at: usize, n: usize, k: &[u8], i: usize) -> Ordering
    requires { (at + n ≤ length s.now) × (i ≤ length k.now) }
    ensures { result ≡ order_of (area at n s.now) (area i n k.now) }
{
    let m = n.min(k.len() - i);
    octets::compare(&s[at..at + n], &k[i..i + m])
}

// The later siblings, if there are any, stand next above.
fn nearer(s: Stop, at: usize, lead: usize, left: usize) -> Stop
    ensures { result ≡ pick (leads_on left at) (stop_at at lead left) s }
{
    if radix::leads(left, at) {
        return Stop { at, lead, left };
    }
    s
}

// The walk along the key's path, to where the first key at or above it is the first. It and those below count nothing by hand: each step
// follows a link that it reads.
fn stop_above(s: &[u8], first: usize, k: &[u8]) -> Stop
    requires { length s.now ≡ record_size }
    ensures { StopsAbove (pool_in s.now) first k.now result }
{
    let mut at = first;
    let mut i = 0;
    let mut left: usize = 256;
    let mut stop = Stop {
        at: 0,
        lead: 0,
        left: 0,
    };
    while radix::leads(left, at) {
        let p = at - 1;
        let n = radix_bytes::label_len(s, p);
        match side(s, LABELS_AT + 16 * p, n, k, i) {
            Ordering::Less => {
                at = radix_bytes::next_at(s, p);
                left -= 1;
            }
            Ordering::Equal => {
                if k.len() <= i + n {
                    return Stop { at, lead: i, left };
                }
                left -= 1;
                stop = nearer(stop, radix_bytes::next_at(s, p), i, left);
                i += n;
                at = radix_bytes::child_at(s, p);
            }
            Ordering::Greater => return Stop { at, lead: i, left },
        }
    }
    stop
}

// A key node on the key's path stands last before, by itself.
fn own_stop(s: &[u8], before: Stop, at: usize, lead: usize) -> Stop
    requires { (length s.now ≡ record_size) × ((0 < at) × (at ≤ 256)) }
    ensures { result ≡ pick (eqb (get_or (pool_in s.now).key (at - 1) 0) 0) before (stop_at at lead 1) }
{
    if radix_bytes::key_at(s, at - 1) == 0 {
        return before;
    }
    Stop { at, lead, left: 1 }
}

// The walk along the key's path, to where the last key at or below it is the last.
fn stop_below(s: &[u8], first: usize, k: &[u8]) -> Stop
    requires { length s.now ≡ record_size }
    ensures { StopsBelow (pool_in s.now) first k.now result }
{
    let mut at = first;
    let mut i = 0;
    let mut left: usize = 256;
    let mut stop = Stop {
        at: 0,
        lead: 0,
        left: 0,
    };
    while radix::leads(left, at) {
        let p = at - 1;
        let n = radix_bytes::label_len(s, p);
        match side(s, LABELS_AT + 16 * p, n, k, i) {
            Ordering::Less => {
                stop = Stop { at, lead: i, left };
                at = radix_bytes::next_at(s, p);
                left -= 1;
            }
            Ordering::Equal => {
                stop = own_stop(s, stop, at, i);
                i += n;
                at = radix_bytes::child_at(s, p);
                left -= 1;
            }
            Ordering::Greater => return stop,
        }
    }
    stop
}

// The bytes of a path, n of them, and after them m bytes of s from at on, as many as there is room for.
fn laid(path: &mut [u8], n: usize, s: &[u8], at: usize, m: usize) -> usize
    requires { (length path.old ≡ 16) × (n ≤ 16) × (at + m ≤ length s.now) }
    ensures { (result ≤ 16) × (take result path.new ≡ take 16 (take n path.old ++ area at m s.now)) }
{
    let fits = m.min(16 - n);
    octets::copy_in(path, n, &s[at..at + fits]);
    n + fits
}

fn entry_of(path: &[u8], n: usize, value: u32) -> Neighbour
    requires { (length path.now ≡ 16) × (n ≤ 16) }
    ensures { result ≡ near_of (entry (take n path.now) value) }
{
    let mut key = [0u8; 16];
    octets::copy_in(&mut key, 0, &path[0..n]);
    Neighbour { len: n, value, key }
}

// The entry of a key node.
fn own_entry(s: &[u8], p: usize, path: &[u8], n: usize) -> Option<Neighbour>
    requires { (length s.now ≡ record_size) × ((p < 256) × (length path.now ≡ 16) × (n ≤ 16)) }
    ensures { result ≡ option_map near_of (own_of (take n path.now) (value_of (pool_in s.now) p)) }
{
    if radix_bytes::key_at(s, p) == 0 {
        return None;
    }
    Some(entry_of(path, n, radix_bytes::value_at(s, p)))
}

// Down by first children to a key node.
fn least(s: &[u8], from: Stop, k: &[u8]) -> Option<Neighbour>
    requires { (length s.now ≡ record_size) × (from.lead ≤ length k.now) }
    ensures { result ≡ option_map near_of (cut_key (least_from (pool_in s.now) k.now from)) }
{
    let mut path = [0u8; 16];
    let mut n = laid(&mut path, 0, k, 0, from.lead);
    let mut at = from.at;
    let mut left = from.left;
    while radix::leads(left, at) {
        let p = at - 1;
        n = laid(
            &mut path,
            n,
            s,
            LABELS_AT + 16 * p,
            radix_bytes::label_len(s, p),
        );
        if radix_bytes::key_at(s, p) != 0 {
            return Some(entry_of(&path, n, radix_bytes::value_at(s, p)));
        }
        at = radix_bytes::child_at(s, p);
        left -= 1;
    }
    None
}

// The last of the siblings that a link leads to.
fn last_of(s: &[u8], left: usize, link: usize) -> Stop
    requires { length s.now ≡ record_size }
    ensures { LastOf (pool_in s.now) left link result }
{
    let mut at = link;
    let mut rest = left;
    while radix::leads(rest, at) {
        let later = radix_bytes::next_at(s, at - 1);
        if !radix::leads(rest - 1, later) {
            return Stop {
                at,
                lead: 0,
                left: rest,
            };
        }
        at = later;
        rest -= 1;
    }
    Stop {
        at,
        lead: 0,
        left: rest,
    }
}

// Down by last children to a node that has none.
fn greatest(s: &[u8], from: Stop, k: &[u8]) -> Option<Neighbour>
    requires { (length s.now ≡ record_size) × (from.lead ≤ length k.now) }
    ensures { result ≡ option_map near_of (cut_key (greatest_from (pool_in s.now) k.now from)) }
{
    let mut path = [0u8; 16];
    let mut n = laid(&mut path, 0, k, 0, from.lead);
    let mut at = from.at;
    let mut left = from.left;
    while radix::leads(left, at) {
        let p = at - 1;
        n = laid(
            &mut path,
            n,
            s,
            LABELS_AT + 16 * p,
            radix_bytes::label_len(s, p),
        );
        let below = radix_bytes::child_at(s, p);
        if !radix::leads(left - 1, below) {
            return own_entry(s, p, &path, n);
        }
        let last = last_of(s, left - 1, below);
        at = last.at;
        left = last.left;
    }
    None
}

// The first key at or above k in the tree that a link leads to.
pub fn first_from(s: &[u8], first: usize, k: &[u8]) -> Option<Neighbour>
    requires { length s.now ≡ record_size }
    ensures { result ≡ option_map near_of (cut_key (first_in [] (tree_at 256 (pool_in s.now) first) k.now)) }
{
    let stop = stop_above(s, first, k);
    least(s, stop, k)
}

// The last key at or below k.
pub fn last_from(s: &[u8], first: usize, k: &[u8]) -> Option<Neighbour>
    requires { length s.now ≡ record_size }
    ensures { result ≡ option_map near_of (cut_key (last_in [] (tree_at 256 (pool_in s.now) first) k.now)) }
{
    let stop = stop_below(s, first, k);
    greatest(s, stop, k)
}
