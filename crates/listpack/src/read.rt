// The strict reader of one element.

ghost use Rattle.std.specs.Prelude.{◌≡◌, ◌≤◌, ◌<◌, length, get_or, is_none};
ghost use Rattle.octets.specs.Bytes.{le_value};
ghost use Rattle.octets.specs.Place.{area};
ghost use Rattle.decimal.specs.Integer.{pattern_of};
ghost use Rattle.listpack.specs.Width.{extend, half_of};
ghost use Rattle.listpack.specs.Read.{back_at, integer_stands, as_integer, text_stands, as_text, tag_width, read_wide, read_element};

use crate::Element;
use crate::form::{HALF_SHORT, back_size, body_size, extend, half_of, head_size};

// The back length of n stands at n.
fn back_at(n: usize, s: &[u8]) -> bool
    requires { n < 16384 }
    ensures { result ≡ back_at n s.now }
{
    if n < 128 {
        if s.len() <= n {
            return false;
        }
        return octets::wide(s[n]) == n as u64;
    }
    if s.len() <= n + 1 {
        return false;
    }
    if octets::wide(s[n]) != (n / 128) as u64 {
        return false;
    }
    octets::wide(s[n + 1]) == (128 + n % 128) as u64
}

// An integer in n bytes: the first form that fits it has as many, and it is closed.
pub fn integer_stands(s: &[u8], p: u64, n: usize) -> bool
    requires { n ≤ 9 }
    ensures { result ≡ integer_stands s.now p n }
{
    if body_size(p) != n {
        return false;
    }
    back_at(n, s)
}

// Where the element is made, apart from the tests, so that the compiler keeps it in registers.
fn as_integer(p: u64, n: usize, stands: bool) -> Option<Element>
    requires { n ≤ 9 }
    ensures { result ≡ as_integer p n stands }
{
    if stands {
        return Some(Element::Integer {
            pattern: p,
            size: n + back_size(n),
        });
    }
    None
}

// The string is no integer.
pub fn is_text(s: &[u8]) -> bool
    ensures { result ≡ is_none (pattern_of s.now) }
{
    let found = decimal::recognise(s);
    match found {
        Some(_) => false,
        None => true,
    }
}

// A text of l bytes from at on: it has that head, is closed and is no integer, which is asked last since it looks at every digit.
pub fn text_stands(s: &[u8], at: usize, l: usize) -> bool
    requires { (at ≤ 2) × (l < 4096) }
    ensures { result ≡ text_stands s.now at l }
{
    if head_size(l) != at {
        return false;
    }
    let n = at + l;
    if back_at(n, s) {
        return is_text(&s[at..n]);
    }
    false
}

// The text as an element, likewise.
fn as_text(at: usize, l: usize, stands: bool) -> Option<Element>
    requires { (at ≤ 2) × (l < 4096) }
    ensures { result ≡ as_text at l stands }
{
    if stands {
        let n = at + l;
        return Some(Element::Text {
            start: at,
            len: l,
            size: n + back_size(n),
        });
    }
    None
}

// The number in the w bytes after the first.
pub fn wide_value(s: &[u8], w: usize) -> u64
    requires { (1 ≤ w) × (w ≤ 8) × (w < length s.now) }
    ensures { result ≡ extend (half_of w) (le_value (area 1 w s.now)) }
{
    extend(half_of(w), octets::read_le(s, 1, w))
}

// A number of w bytes; none where w is 0.
fn read_wide(s: &[u8], w: usize) -> Option<Element>
    requires { w ≤ 8 }
    ensures { result ≡ read_wide w s.now }
{
    if w == 0 {
        return None;
    }
    if s.len() <= w {
        return None;
    }
    let v = wide_value(s, w);
    as_integer(v, 1 + w, integer_stands(s, v, 1 + w))
}

// F1 to F4; no other byte from 240 on has a form. Each width stands there as a number, so that its loop is unrolled.
fn read_tagged(s: &[u8], b: u64) -> Option<Element>
    ensures { result ≡ read_wide (tag_width b) s.now }
{
    if b == 241 {
        return read_wide(s, 2);
    }
    if b == 242 {
        return read_wide(s, 3);
    }
    if b == 243 {
        return read_wide(s, 4);
    }
    if b == 244 {
        return read_wide(s, 8);
    }
    None
}

// An element whose first byte is 128 or above.
fn read_longer(s: &[u8], b: u64) -> Option<Element>
    requires { (2 ≤ length s.now) × (b ≡ get_or s.now 0 0) × (128 ≤ b) × (b < 256) }
    ensures { result ≡ read_element s.now }
{
    if b < 192 {
        let l = (b - 128) as usize;
        return as_text(1, l, text_stands(s, 1, l));
    }
    let c = octets::wide(s[1]);
    if b < 224 {
        let v = extend(HALF_SHORT, 256 * (b - 192) + c);
        return as_integer(v, 2, integer_stands(s, v, 2));
    }
    if b < 240 {
        let l = (256 * (b - 224) + c) as usize;
        return as_text(2, l, text_stands(s, 2, l));
    }
    read_tagged(s, b)
}

// The element at the start of s, by its first byte. Small, so that the compiler puts it where it is called.
pub fn read_element(s: &[u8]) -> Option<Element>
    ensures { result ≡ read_element s.now }
{
    if s.len() < 2 {
        return None;
    }
    let b = octets::wide(s[0]);
    if b < 128 {
        return as_integer(b, 1, integer_stands(s, b, 1));
    }
    read_longer(s, b)
}
