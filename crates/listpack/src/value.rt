// What an element that is known to be there stands for: whether its string is an integer, without a copy.

ghost use Rattle.std.specs.Prelude.{◌≡◌};
ghost use Rattle.decimal.specs.Integer.{pattern_of};
ghost use Rattle.listpack.specs.Known.{ElementAt, string_at, number_at};

use crate::known::{known_integer, known_size};

// An integer's pattern, and the place after it.
#[derive(Clone, Copy)]
pub struct Number {
    pub pattern: u64,
    pub next: usize,
}

// The integer that is stored there, or that a text is.
pub fn known_stored(s: &[u8], at: usize) -> Option<u64>
    requires { ElementAt s.now at }
    ensures { result ≡ pattern_of (string_at s.now at) }
{
    let b = octets::wide(s[at]);
    if b < 128 {
        return Some(b);
    }
    if b < 192 {
        return None;
    }
    if b < 224 {
        let p = known_integer(s, at);
        return Some(p);
    }
    if b < 240 {
        return None;
    }
    let p = known_integer(s, at);
    Some(p)
}

// The integer there. Most are of 7 bits.
pub fn known_number(s: &[u8], at: usize) -> Number
    requires { ElementAt s.now at }
    ensures { result ≡ number_at s.now at }
{
    let b = octets::wide(s[at]);
    if b < 128 {
        return Number {
            pattern: b,
            next: at + 2,
        };
    }
    let pattern = known_integer(s, at);
    Number {
        pattern,
        next: at + known_size(s, at),
    }
}
