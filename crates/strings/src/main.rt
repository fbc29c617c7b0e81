// Reads strings from standard input, each a 2-byte little-endian length and its bytes, and writes for each a line: the string in
// hexadecimal, or '-' if it is empty, a space, and its element. The independent program of the same name under host/ writes the same.

#![tactic(auto)]

ghost use Rattle.std.specs.Prelude.{◌≤◌, length};

use std::io;
use std::io::{Read, Write};

fn show_line<W: Write>(out: &mut W, s: &[u8]) -> io::Result<()> {
    if s.is_empty() {
        show::text(out, b"-")?;
    } else {
        show::hex(out, s, b"")?;
    }
    show::text(out, b" ")?;
    show::element(out, s, 0, b"")?;
    show::text(out, b"\n")
}

// The length that comes next, if one does.
fn next_length<R: Read>(input: &mut R) -> Option<usize> {
    let mut head = [0u8; 2];
    input.read_exact(&mut head).ok()?;
    Some(usize::from(u16::from_le_bytes(head)))
}

// So many bytes.
fn read_bytes<R: Read>(input: &mut R, d: &mut [u8], n: usize) -> bool
    requires { n ≤ length d.old }
{
    n == 0 || input.read_exact(&mut d[0..n]).is_ok()
}

// The next string, if there is one of at most 4,095 bytes.
fn next_line<R: Read, W: Write>(input: &mut R, out: &mut W) -> io::Result<bool> {
    let Some(n) = next_length(input) else {
        return Ok(false);
    };
    if 4095 < n {
        return Ok(false);
    }
    let mut s = [0u8; 4096];
    if !read_bytes(input, &mut s, n) {
        return Ok(false);
    }
    show_line(out, &s[0..n])?;
    Ok(true)
}

// As many lines as there are, and at most so many.
fn main(rt: HostRuntime) -> io::Result<()> {
    let mut input = rt.stdin();
    let mut out = io::writer(&rt);
    for _ in 0..100000 {
        if !next_line(&mut input, &mut out)? {
            return Ok(());
        }
    }
    Ok(())
}
