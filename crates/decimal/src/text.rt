// The decimal text of an integer.

ghost use Rattle.std.specs.Prelude.{◌≡◌, [], ◌∷◌, ◌+◌, ◌/◌, ◌%◌, ◌≤◌, ◌<◌, length};
ghost use Rattle.octets.specs.Place.{put};
ghost use Rattle.decimal.specs.Text.{text_of, natural_text};

use crate::{HALF, negated};

pub fn text_size(p: u64) -> usize
    ensures { result ≡ length (text_of p) }
{
    if p < HALF {
        return natural_size(p);
    }
    1 + natural_size(negated(p))
}

// Of a number of at most four digits.
fn short_size(n: u64) -> usize
    requires { n < 10000 }
    ensures { (result ≡ length (natural_text n)) × (result ≤ 4) }
{
    if n < 10 {
        return 1;
    }
    if n < 100 {
        return 2;
    }
    if n < 1000 {
        return 3;
    }
    4
}

// Of a number without a sign, four digits at a time.
pub fn natural_size(n: u64) -> usize
    ensures { result ≡ length (natural_text n) }
{
    let mut size = 0;
    let mut x = n;
    // No range: x is divided until it is short.
    while 10000 <= x {
        x = x / 10000;
        size += 4;
    }
    size + short_size(x)
}

pub fn write_text(d: &mut [u8], at: usize, p: u64)
    requires { at + length (text_of p) ≤ length d.old }
    ensures { d.new ≡ put d.old at (text_of p) }
{
    if p < HALF {
        write_natural(d, at, p);
        return;
    }
    let n = negated(p);
    d[at] = b'-';
    write_natural(d, at + 1, n);
}

// Two digits.
fn write_two(d: &mut [u8], at: usize, n: u64)
    requires { (n < 100) × (at + 2 ≤ length d.old) }
    ensures { d.new ≡ put d.old at ((48 + n / 10) ∷ ((48 + n % 10) ∷ [])) }
{
    d[at] = b'0' + (n / 10) as u8;
    d[at + 1] = b'0' + (n % 10) as u8;
}

// A number without a sign that has `size` digits, two at a time from the last to the first.
pub fn write_sized(d: &mut [u8], at: usize, size: usize, n: u64)
    requires { (size ≡ length (natural_text n)) × (at + size ≤ length d.old) }
    ensures { d.new ≡ put d.old at (natural_text n) }
{
    let mut end = at + size;
    let mut x = n;
    // No range: x is divided until it is short.
    while 100 <= x {
        end -= 2;
        write_two(d, end, x % 100);
        x = x / 100;
    }
    if x < 10 {
        d[at] = b'0' + x as u8;
        return;
    }
    write_two(d, at, x);
}

pub fn write_natural(d: &mut [u8], at: usize, n: u64)
    requires { at + length (natural_text n) ≤ length d.old }
    ensures { d.new ≡ put d.old at (natural_text n) }
{
    let size = natural_size(n);
    write_sized(d, at, size, n);
}
