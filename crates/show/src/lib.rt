// Bytes and numbers written to a writer, for the programs whose output is compared.

#![tactic(auto)]

use std::io;
use std::io::Write;

// By hand, since `{b:02X}` makes two writes of a byte below 16, and takes 1.25 to 2.4 times the time (docs/DESIGN-PASS.md).
const DIGITS: [u8; 16] = *b"0123456789ABCDEF";

// A label or a separator, as it is.
pub fn text<W: Write>(out: &mut W, s: &[u8]) -> io::Result<()> {
    out.write_all(s)
}

// Two digits a byte, in one write, each after the separator.
pub fn hex<W: Write>(out: &mut W, s: &[u8], separator: &[u8]) -> io::Result<()> {
    for &b in s {
        text(out, separator)?;
        out.write_all(&[DIGITS[usize::from(b / 16)], DIGITS[usize::from(b % 16)]])?;
    }
    Ok(())
}

// The element of a string, if it has one, without its first `skipped` bytes.
pub fn element<W: Write>(
    out: &mut W,
    s: &[u8],
    skipped: usize,
    separator: &[u8],
) -> io::Result<()> {
    if 4095 < s.len() {
        return Ok(());
    }
    let mut d = [0u8; 4200];
    let n = listpack::write_string(&mut d, 0, s);
    if n < skipped {
        return Ok(());
    }
    hex(out, &d[skipped..n], separator)
}

// A label, and a space and two digits for each byte, on a line.
pub fn line<W: Write>(out: &mut W, label: &[u8], s: &[u8]) -> io::Result<()> {
    text(out, label)?;
    hex(out, s, b" ")?;
    text(out, b"\n")
}

// A label, a space and a number, on a line.
pub fn count<W: Write>(out: &mut W, label: &[u8], n: u64) -> io::Result<()> {
    text(out, label)?;
    writeln!(out, " {n}")
}

// Adler-32 (RFC 1950).
fn checksum(s: &[u8]) -> u64 {
    let mut a: u64 = 1;
    let mut b: u64 = 0;
    for &x in s {
        a = (a + octets::wide(x)) % 65521;
        b = (b + a) % 65521;
    }
    b * 65536 + a
}

// A label, a space and the checksum of bytes, on a line.
pub fn sum<W: Write>(out: &mut W, label: &[u8], s: &[u8]) -> io::Result<()> {
    count(out, label, checksum(s))
}
