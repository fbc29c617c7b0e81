// The strict reader of bytes that are not judged yet. It is handed the part from an element on, and answers in numbers, which the compiler
// keeps in registers.

ghost use Rattle.std.specs.Prelude.{◌≡◌, ◌≤◌, ◌<◌, length, get_or};
ghost use Rattle.listpack.specs.Read.{read_element, read_wide};
ghost use Rattle.listpack.specs.AtPlace.{long_size, string_size, end_after, leading_of, is_small};
ghost use Rattle.listpack.specs.Known.{pattern_in};

use crate::form::{HALF_SHORT, back_size, extend};
use crate::read::{integer_stands, is_text, text_stands, wide_value};

// A number at the start of a part, and how many bytes its element takes.
#[derive(Clone, Copy)]
pub struct Numeral {
    pub pattern: u64,
    pub size: usize,
}

// A number of w bytes. Here and below 0 says that there is none: an Option of a function that is called goes through memory (DECISIONS, 34).
fn wide_integer(t: &[u8], w: usize) -> u64
    requires { (1 ≤ w) × (w ≤ 8) }
    ensures { result ≡ pattern_in (read_wide w t.now) }
{
    if t.len() <= w {
        return 0;
    }
    let v = wide_value(t, w);
    if integer_stands(t, v, 1 + w) {
        return v;
    }
    0
}

// A number of 13 bits; of those the ones below 128 have a shorter form.
fn short_integer(t: &[u8], b: u64) -> u64
    requires { (2 ≤ length t.now) × (b ≡ get_or t.now 0 0) × (192 ≤ b) × (b < 224) }
    ensures { result ≡ pattern_in (read_element t.now) }
{
    if t.len() < 3 {
        return 0;
    }
    let v = 256 * (b - 192) + octets::wide(t[1]);
    if v < 128 {
        return 0;
    }
    if t[2] != 2 {
        return 0;
    }
    extend(HALF_SHORT, v)
}

// A number above 7 bits, by its first byte b.
fn long_integer(t: &[u8], b: u64) -> u64
    requires { (2 ≤ length t.now) × (b ≡ get_or t.now 0 0) × (128 ≤ b) }
    ensures { result ≡ pattern_in (read_element t.now) }
{
    if b < 192 {
        return 0;
    }
    if b < 224 {
        return short_integer(t, b);
    }
    if b == 241 {
        return wide_integer(t, 2);
    }
    if b == 242 {
        return wide_integer(t, 3);
    }
    if b == 243 {
        return wide_integer(t, 4);
    }
    if b == 244 {
        return wide_integer(t, 8);
    }
    0
}

// How many bytes such a number takes.
fn long_size(b: u64) -> usize
    ensures { result ≡ long_size b }
{
    if b < 224 {
        return 3;
    }
    if b == 241 {
        return 4;
    }
    if b == 242 {
        return 5;
    }
    if b == 243 {
        return 6;
    }
    10
}

// The number that a part begins with.
pub fn read_number(t: &[u8]) -> Option<Numeral>
    ensures { result ≡ leading_of (read_element t.now) }
{
    if t.len() < 2 {
        return None;
    }
    let b = octets::wide(t[0]);
    if b < 128 {
        if t[1] != 1 {
            return None;
        }
        return Some(Numeral {
            pattern: b,
            size: 2,
        });
    }
    let p = long_integer(t, b);
    if p == 0 {
        return None;
    }
    Some(Numeral {
        pattern: p,
        size: long_size(b),
    })
}

// A part begins with this integer of 7 bits.
pub fn is_small(t: &[u8], p: u64) -> bool
    requires { p < 128 }
    ensures { result ≡ is_small p t.now }
{
    if t.len() < 2 {
        return false;
    }
    if octets::wide(t[0]) != p {
        return false;
    }
    t[1] == 1
}

// A text of 0 to 63 bytes.
fn short_text_size(t: &[u8], b: u64) -> usize
    requires { (2 ≤ length t.now) × (b ≡ get_or t.now 0 0) × (128 ≤ b) × (b < 192) }
    ensures { result ≡ string_size (read_element t.now) }
{
    let n = 1 + (b - 128) as usize;
    if t.len() <= n {
        return 0;
    }
    if octets::wide(t[n]) != n as u64 {
        return 0;
    }
    if is_text(&t[1..n]) {
        return n + 1;
    }
    0
}

// A text of 64 bytes or more.
fn long_text_size(t: &[u8], b: u64) -> usize
    requires { (2 ≤ length t.now) × (b ≡ get_or t.now 0 0) × (224 ≤ b) × (b < 240) }
    ensures { result ≡ string_size (read_element t.now) }
{
    let l = (256 * (b - 224) + octets::wide(t[1])) as usize;
    if 1000 < l {
        return 0;
    }
    if text_stands(t, 2, l) {
        let n = 2 + l;
        return n + back_size(n);
    }
    0
}

// A string whose first byte is 128 or above.
fn long_string_size(t: &[u8], b: u64) -> usize
    requires { (2 ≤ length t.now) × (b ≡ get_or t.now 0 0) × (128 ≤ b) × (b < 256) }
    ensures { result ≡ string_size (read_element t.now) }
{
    if b < 192 {
        return short_text_size(t, b);
    }
    if b < 224 {
        if short_integer(t, b) == 0 {
            return 0;
        }
        return 3;
    }
    if b < 240 {
        return long_text_size(t, b);
    }
    if long_integer(t, b) == 0 {
        return 0;
    }
    long_size(b)
}

// A string, which has at most 1,000 bytes. Small integers are the most frequent ones, so they come first.
fn string_size(t: &[u8]) -> usize
    ensures { result ≡ string_size (read_element t.now) }
{
    if t.len() < 2 {
        return 0;
    }
    let b = octets::wide(t[0]);
    if b < 128 {
        if t[1] == 1 {
            return 2;
        }
        return 0;
    }
    long_string_size(t, b)
}

// The place after n strings, and 0 where one of them is none. Two walks call it, so it stands by itself, and answers in a number: an
// Option of a called function goes through memory. A `for` over the count takes three instructions more for each string.
pub fn strings_end(s: &[u8], from: usize, n: usize) -> usize
    requires { from ≤ length s.now }
    ensures { result ≡ end_after n s.now from }
{
    let mut at = from;
    let mut k = n;
    while 0 < k {
        let size = string_size(&s[at..]);
        if size == 0 {
            return 0;
        }
        at += size;
        k -= 1;
    }
    at
}
