// Is a part of a file the body of a group?

ghost use Rattle.std.specs.Prelude.{◌≡◌, not, [], ◌+◌, ◌≤◌, length, drop, is_none};
ghost use Rattle.std.specs.Option.{IfSome};
ghost use Rattle.groups.specs.Parse.{parse_body};
ghost use Rattle.group_body.specs.Answer.{name_end, names_end, entries_end};

use groups::{ENTRY_BYTES, LONGEST_NAME, MOST_CONSUMERS, MOST_PENDING};
use id::Id;

// Where the name at a place ends, if it is above another.
fn name_end(s: &[u8], above: &[u8], at: usize) -> Option<usize>
    requires { at ≤ length s.now }
    ensures { (result ≡ name_end above.now at s.now) × IfSome result (λ end. end ≤ length s.now) }
{
    if s.len() <= at {
        return None;
    }
    let n = octets::wide(s[at]) as usize;
    if n < 1 {
        return None;
    }
    if LONGEST_NAME < n {
        return None;
    }
    if s.len() - at - 1 < n {
        return None;
    }
    if !octets::comes_before(above, &s[at + 1..at + 1 + n]) {
        return None;
    }
    Some(at + 1 + n)
}

// Where so many rising names at a place end.
fn names_end(s: &[u8], at: usize, count: usize) -> Option<usize>
    requires { at ≤ length s.now }
    ensures { (result ≡ names_end [] at count s.now) × IfSome result (λ end. end ≤ length s.now) }
{
    let mut i = at;
    let mut above: &[u8] = b"";
    for _ in 0..count {
        let end = name_end(s, above, i)?;
        above = &s[i + 1..end];
        i = end;
    }
    Some(i)
}

// The number of entries and the entries, to the end.
fn entries_end(s: &[u8], at: usize, consumers: usize, most: Id) -> bool
    requires { at ≤ length s.now }
    ensures { result ≡ entries_end consumers most (drop at s.now) }
{
    if s.len() - at < 2 {
        return false;
    }
    let n = octets::read_le(s, at, 2) as usize;
    if MOST_PENDING < n {
        return false;
    }
    if s.len() - at - 2 != n * ENTRY_BYTES {
        return false;
    }
    groups::entries_rise(s, at + 2, n, consumers, most)
}

pub fn check_body(s: &[u8]) -> bool
    ensures { result ≡ not (is_none (parse_body s.now)) }
{
    let Some(a) = name_end(s, b"", 0) else {
        return false;
    };
    if s.len() - a < 17 {
        return false;
    }
    let k = octets::wide(s[a + 16]) as usize;
    if MOST_CONSUMERS < k {
        return false;
    }
    let Some(b) = names_end(s, a + 17, k) else {
        return false;
    };
    entries_end(s, b, k, id::read_id(s, a))
}
