// Tests and comparisons of whole slices.

ghost use Rattle.std.specs.Prelude.{◌≡◌, eqb, drop};
ghost use Rattle.octets.specs.Pick.{both};
ghost use Rattle.octets.specs.Compare.{all_zero, same, order_of, comes_before};

use std::cmp::Ordering;

// Byte by byte, for a short tail.
fn zero_by_bytes(s: &[u8], at: usize) -> bool
    ensures { result ≡ all_zero (drop at s.now) }
{
    for i in at..s.len() {
        if s[i] != 0 {
            return false;
        }
    }
    true
}

// By the greatest byte of all: a loop without an early return is compiled to vector instructions.
fn zero_by_greatest(s: &[u8], at: usize) -> bool
    ensures { result ≡ all_zero (drop at s.now) }
{
    let mut greatest = 0u8;
    for i in at..s.len() {
        greatest = greatest.max(s[i]);
    }
    greatest == 0
}

pub fn all_zero_from(s: &[u8], at: usize) -> bool
    ensures { result ≡ all_zero (drop at s.now) }
{
    if s.len() < 32 {
        return zero_by_bytes(s, at);
    }
    if s.len() - 32 < at {
        return zero_by_bytes(s, at);
    }
    zero_by_greatest(s, at)
}

// The first comes before the second.
pub fn comes_before(a: &[u8], b: &[u8]) -> bool
    ensures { result ≡ comes_before a.now b.now }
{
    compare(a, b).is_lt()
}

pub fn equal(a: &[u8], b: &[u8]) -> bool
    ensures { result ≡ same a.now b.now }
{
    a == b
}

// Bytewise, a prefix first. Most keys and names differ in the first byte, and asking std costs more than that byte.
pub fn compare(a: &[u8], b: &[u8]) -> Ordering
    ensures { result ≡ order_of a.now b.now }
{
    if 0 < a.len() && 0 < b.len() && a[0] != b[0] {
        return a[0].cmp(&b[0]);
    }
    a.cmp(b)
}
