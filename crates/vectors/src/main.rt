// Writes the byte examples of the exact rules that are not proved against the definitions. What it must write is the file stdout
// beside it, which the independent program of the same name under host/ writes too.

#![tactic(auto)]

ghost use Rattle.std.specs.Prelude.{◌+◌, ◌≤◌, ◌<◌, length};

use std::io;
use std::io::Write;

// The element of a string.
fn whole<W: Write>(out: &mut W, label: &[u8], s: &[u8]) -> io::Result<()> {
    show::text(out, label)?;
    show::element(out, s, 0, b" ")?;
    show::text(out, b"\n")
}

// The back length of the element of n letters, which follows a head of 2 bytes.
fn back_length<W: Write>(out: &mut W, label: &[u8], n: usize) -> io::Result<()>
    requires { n ≤ 128 }
{
    let letters = [b'x'; 128];
    show::text(out, label)?;
    show::element(out, &letters[0..n], 2 + n, b" ")?;
    show::text(out, b"\n")
}

// One element more, with a byte left after it; nothing where there is no such room.
fn push(d: &mut [u8], at: usize, s: &[u8]) -> usize
    requires { (at < length d.old) × (length s.now < 4096) }
    ensures { result < length d.new }
{
    if d.len() - at <= s.len() + 9 {
        return at;
    }
    listpack::write_string(d, at, s)
}

// How a listpack grows: where the next element goes, and how many there are.
#[derive(Clone, Copy)]
struct End {
    at: usize,
    count: u64,
}

// The elements of strings, each given as a length byte and its bytes. A walk: how far a step goes is read.
fn push_all(d: &mut [u8], strings: &[u8]) -> End
    requires { 6 < length d.old }
    ensures { result.at < length d.new }
{
    let mut at = 6;
    let mut count: u64 = 0;
    let mut i = 0;
    while i < strings.len() {
        let n = octets::wide(strings[i]) as usize;
        i += 1;
        if strings.len() - i < n {
            return End { at, count };
        }
        at = push(d, at, &strings[i..i + n]);
        i += n;
        count += 1;
    }
    End { at, count }
}

// 5-0 with a=1, then 6-0 with b empty: master, first message by the master's fields, second message with its own.
fn node<W: Write>(out: &mut W, d: &mut [u8]) -> io::Result<()>
    requires { 6 < length d.old }
{
    let end = push_all(
        d,
        b"\x012\x010\x011\x01a\x010\x012\x010\x010\x011\x014\x010\x011\x010\x011\x01b\x00\x016",
    );
    let at = end.at;
    d[at] = 255;
    listpack::write_header(d, (at + 1) as u64, end.count);
    show::line(out, b"node 5-0 a=1, 6-0 b empty:", &d[0..at + 1])?;
    show::count(out, b"node bytes:", (at + 1) as u64)?;
    show::count(out, b"node elements:", end.count)
}

fn main(rt: HostRuntime) -> io::Result<()> {
    let mut out = io::writer(&rt);
    whole(&mut out, b"127:", b"127")?;
    whole(&mut out, b"4095:", b"4095")?;
    whole(&mut out, b"32768:", b"32768")?;
    whole(&mut out, b"8388608:", b"8388608")?;
    back_length(&mut out, b"text of 125 bytes, back length:", 125)?;
    back_length(&mut out, b"text of 126 bytes, back length:", 126)?;
    let mut d = [0u8; 64];
    node(&mut out, &mut d)
}
