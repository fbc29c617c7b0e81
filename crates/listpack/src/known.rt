// Elements that are known to be there, in bytes that were judged: by their first bytes alone, without the tests of the strict reader.

ghost use Rattle.std.specs.Prelude.{Some, ◌≡◌, ◌≤◌, ◌<◌, length, get_or, drop};
ghost use Rattle.octets.specs.Compare.{same};
ghost use Rattle.listpack.specs.Read.{read_element};
ghost use Rattle.listpack.specs.Known.{ElementAt, ElementsAt, string_at, size_at, pattern_at, small_at, is_end, end_at, text_at, start_at};

use crate::Element;
use crate::form::{HALF_16, HALF_24, HALF_32, HALF_SHORT, back_size, extend};
use crate::is::integer_is;

// The size of a text of 64 bytes or more, whose head has two bytes.
fn long_size(s: &[u8], at: usize, b: u64) -> usize
    requires { (ElementAt s.now at) × (b ≡ get_or s.now at 0) × (224 ≤ b) × (b < 240) }
    ensures { result ≡ size_at s.now at }
{
    let n = (256 * (b - 224) + octets::wide(s[at + 1])) as usize + 2;
    n + back_size(n)
}

// A number of 7 bits.
pub fn known_small(s: &[u8], at: usize) -> u64
    requires { at < length s.now }
    ensures { (result ≡ small_at s.now at) × (result < 256) }
{
    octets::wide(s[at])
}

// The end byte stands there, not an element.
pub fn is_end(s: &[u8], at: usize) -> bool
    requires { at < length s.now }
    ensures { result ≡ is_end s.now at }
{
    s[at] == 255
}

// The size of the element there.
pub fn known_size(s: &[u8], at: usize) -> usize
    requires { ElementAt s.now at }
    ensures { result ≡ size_at s.now at }
{
    let b = octets::wide(s[at]);
    if b < 128 {
        return 2;
    }
    if b < 192 {
        return (b - 126) as usize;
    }
    if b < 224 {
        return 3;
    }
    if b < 240 {
        return long_size(s, at, b);
    }
    if b < 244 {
        return (b - 237) as usize;
    }
    10
}

// The pattern of an integer of three bytes or more.
fn known_wide(s: &[u8], at: usize, b: u64) -> u64
    requires { (ElementAt s.now at) × (b ≡ get_or s.now at 0) × (240 ≤ b) }
    ensures { result ≡ pattern_at s.now at }
{
    if b == 241 {
        return extend(HALF_16, octets::read_le(s, at + 1, 2));
    }
    if b == 242 {
        return extend(HALF_24, octets::read_le(s, at + 1, 3));
    }
    if b == 243 {
        return extend(HALF_32, octets::read_le(s, at + 1, 4));
    }
    octets::read_le(s, at + 1, 8)
}

// The pattern of the integer there; a text has none.
pub fn known_integer(s: &[u8], at: usize) -> u64
    requires { ElementAt s.now at }
    ensures { result ≡ pattern_at s.now at }
{
    let b = octets::wide(s[at]);
    if b < 128 {
        return b;
    }
    if b < 192 {
        return 0;
    }
    if b < 224 {
        return extend(HALF_SHORT, 256 * (b - 192) + octets::wide(s[at + 1]));
    }
    if b < 240 {
        return 0;
    }
    known_wide(s, at, b)
}

// The place after n elements.
pub fn known_end(s: &[u8], at: usize, n: usize) -> usize
    requires { ElementsAt n s.now at }
    ensures { result ≡ end_at n s.now at }
{
    let mut to = at;
    for k in 0..n {
        to += known_size(s, to);
    }
    to
}

// The length of the text there, plus 1; 0 where an integer stands. In one number, where an Option or `known_element` answers
// through memory.
pub fn known_text(s: &[u8], at: usize) -> usize
    requires { ElementAt s.now at }
    ensures { result ≡ text_at s.now at }
{
    let b = octets::wide(s[at]);
    if b < 128 {
        return 0;
    }
    if b < 192 {
        return (b - 127) as usize;
    }
    if b < 224 {
        return 0;
    }
    if b < 240 {
        return (256 * (b - 224) + octets::wide(s[at + 1])) as usize + 1;
    }
    0
}

// How far from its element's place the text starts.
pub fn known_start(s: &[u8], at: usize) -> usize
    requires { ElementAt s.now at }
    ensures { result ≡ start_at s.now at }
{
    let b = octets::wide(s[at]);
    if b < 128 {
        return 0;
    }
    if b < 192 {
        return 1;
    }
    if b < 224 {
        return 0;
    }
    if b < 240 {
        return 2;
    }
    0
}

// The element there.
pub fn known_element(s: &[u8], at: usize) -> Element
    requires { ElementAt s.now at }
    ensures { Some result ≡ read_element (drop at s.now) }
{
    let size = known_size(s, at);
    let b = octets::wide(s[at]);
    if b < 128 {
        return Element::Integer { pattern: b, size };
    }
    if b < 192 {
        return Element::Text {
            start: 1,
            len: (b - 128) as usize,
            size,
        };
    }
    if b < 224 {
        let pattern = known_integer(s, at);
        return Element::Integer { pattern, size };
    }
    if b < 240 {
        let len = (256 * (b - 224) + octets::wide(s[at + 1])) as usize;
        return Element::Text {
            start: 2,
            len,
            size,
        };
    }
    Element::Integer {
        pattern: known_wide(s, at, b),
        size,
    }
}

// The element there is that of the string x.
pub fn known_is(s: &[u8], at: usize, x: &[u8]) -> bool
    requires { ElementAt s.now at }
    ensures { result ≡ same (string_at s.now at) x.now }
{
    match known_element(s, at) {
        Element::Integer { pattern, size: _ } => integer_is(pattern, x),
        Element::Text {
            start,
            len,
            size: _,
        } => {
            let from = at + start;
            let end = from + len;
            octets::equal(&s[from..end], x)
        }
    }
}

// The strings of two elements are the same: their bytes are.
pub fn same_element(s: &[u8], a: usize, b: usize) -> bool
    requires { (ElementAt s.now a) × (ElementAt s.now b) }
    ensures { result ≡ same (string_at s.now a) (string_at s.now b) }
{
    let x = a + known_size(s, a);
    let y = b + known_size(s, b);
    // Names of one kind differ at their end, which lies before the back length.
    if s[x - 2] != s[y - 2] {
        return false;
    }
    octets::equal(&s[a..x], &s[b..y])
}
