// Entries at a place: an ID, then field and value in turn. Each answer says the place after it.

ghost use Rattle.std.specs.Prelude.{◌≡◌, ◌+◌, ◌≤◌, length};
ghost use Rattle.octets.specs.Place.{area};
ghost use Rattle.listpack.specs.Element.{element};
ghost use Rattle.resp.specs.Parse.{pairs_by};
ghost use Rattle.resp_read.specs.Answer.{id_at, opening_at, pairs_at, entry_at, entries_end};

use crate::part::{bulk, head, line_end, number};
use id::Id;

// An ID, or the one of an entry, and the place after it.
#[derive(Clone, Copy)]
pub struct IdFound {
    pub id: Id,
    pub next: usize,
}

// What stands before the pairs of an entry.
#[derive(Clone, Copy)]
pub struct OpeningFound {
    pub id: Id,
    pub pairs: usize,
    pub next: usize,
}

// Pairs: the size of a node of theirs alone, and of their slip.
#[derive(Clone, Copy)]
pub struct Sized {
    pub alone: usize,
    pub slip: usize,
    pub next: usize,
}

// A bulk string that is an ID. Its bytes are read where they lie: they must end where the length says.
fn id_at(s: &[u8], at: usize) -> Option<IdFound>
    ensures { result ≡ id_at s.now at }
{
    let n = head(s, at, resp::BULK)?;
    let ms = number(s, n.next)?;
    let mid = ms.next;
    if s.len() <= mid {
        return None;
    }
    if s[mid] != b'-' {
        return None;
    }
    let seq = number(s, mid + 1)?;
    if ((seq.next - n.next) as u64) != n.value {
        return None;
    }
    let next = line_end(s, seq.next)?;
    Some(IdFound {
        id: Id::new(ms.value, seq.value),
        next,
    })
}

// How many pairs so many strings are, from 1 to 32.
fn pair_count(n: u64) -> Option<usize>
    ensures { result ≡ pairs_by n }
{
    if n % 2 != 0 {
        return None;
    }
    if n < 2 {
        return None;
    }
    if 64 < n {
        return None;
    }
    Some((n / 2) as usize)
}

pub fn opening(s: &[u8], at: usize) -> Option<OpeningFound>
    ensures { result ≡ opening_at s.now at }
{
    let two = head(s, at, resp::ARRAY)?;
    if two.value != 2 {
        return None;
    }
    let i = id_at(s, two.next)?;
    let n = head(s, i.next, resp::ARRAY)?;
    let pairs = pair_count(n.value)?;
    let id = i.id;
    Some(OpeningFound {
        id,
        pairs,
        next: n.next,
    })
}

// How many bytes the string of a part takes as an element.
fn string_size(s: &[u8], from: usize, len: usize) -> usize
    requires { (from + len ≤ length s.now) × (len ≤ 1000) }
    ensures { (result ≡ length (element (area from len s.now))) × (result ≤ 1009) }
{
    let end = from + len;
    listpack::element_size(&s[from..end])
}

// So many pairs. A node of a message alone is 23 bytes more than its strings, and a slip one more.
pub fn pairs(s: &[u8], at: usize, n: usize) -> Option<Sized>
    requires { (at ≤ length s.now) × (n ≤ 32) }
    ensures { result ≡ pairs_at 23 1 s.now n at }
{
    let mut next = at;
    let mut alone = 23;
    let mut slip = 1;
    for _ in 0..n {
        let a = bulk(s, next)?;
        let from = next + resp::head_size(a as u64);
        let mid = from + a + 2;
        let b = bulk(s, mid)?;
        let start = mid + resp::head_size(b as u64);
        alone += string_size(s, from, a) + string_size(s, start, b);
        slip += 4 + a + b;
        next = start + b + 2;
    }
    Some(Sized { alone, slip, next })
}

// A message that fits a node alone: at most 4,095 bytes.
fn entry(s: &[u8], at: usize) -> Option<IdFound>
    ensures { result ≡ entry_at s.now at }
{
    let o = opening(s, at)?;
    let p = pairs(s, o.next, o.pairs)?;
    if 4095 < p.alone {
        return None;
    }
    let id = o.id;
    Some(IdFound { id, next: p.next })
}

// So many, IDs rising from above one. Each turn passes bytes, so a count costs no more than the bytes there are.
pub fn entries(s: &[u8], at: usize, n: u64, above: Id) -> Option<usize>
    requires { at ≤ length s.now }
    ensures { result ≡ entries_end s.now n above at }
{
    let mut next = at;
    let mut last = above;
    for _ in 0..n {
        let e = entry(s, next)?;
        let id = e.id;
        if !last.is_below(id) {
            return None;
        }
        last = id;
        next = e.next;
    }
    Some(next)
}
