// Replies in RESP2 (02, CR 4): the parts of which they are written, and those that are made from a number alone. Which bytes they are is
// said in specs/Reply.

#![tactic(auto)]

ghost use Rattle.std.specs.Prelude.{◌≡◌, ℕ, ◌+◌, ◌≤◌, length};
ghost use Rattle.octets.specs.Place.{put};
ghost use Rattle.resp.specs.Reply.{crlf, head, integer_bytes, error_bytes, is_count, is_refusal_number};
ghost use Rattle.resp.specs.Answer.{replied_by, output_by};

use refusal::Refusal;

// The bytes that say what a part is.
pub const ARRAY: u8 = b'*';

pub const BULK: u8 = b'$';

pub const INTEGER: u8 = b':';

pub const ERROR: u8 = b'-';

// CR LF; the answer is the place after it.
pub fn write_end(d: &mut [u8], at: usize) -> usize
    requires { at + 2 ≤ length d.old }
    ensures { (result ≡ at + 2) × (d.new ≡ put d.old at crlf) }
{
    d[at] = 13;
    d[at + 1] = 10;
    at + 2
}

// How many bytes a head takes, whatever its first one is.
pub fn head_size(n: u64) -> usize
    ensures { ((b : ℕ) → result ≡ length (head b n)) × (result ≤ 23) }
{
    3 + decimal::natural_size(n)
}

// The answer is the place after it.
pub fn write_head(d: &mut [u8], at: usize, b: u8, n: u64) -> usize
    requires { at + length (head b n) ≤ length d.old }
    ensures { (result ≡ at + length (head b n)) × (d.new ≡ put d.old at (head b n)) }
{
    d[at] = b;
    let size = decimal::natural_size(n);
    decimal::write_sized(d, at + 1, size, n);
    write_end(d, at + 1 + size)
}

// What delete, trim and acknowledge answer, and how many bytes it takes: 3, above 6,400; 8, the output is shorter.
pub fn integer_reply(n: u64, out: &mut [u8]) -> Result<usize, Refusal>
    ensures { (result ≡ replied_by (is_count n) (integer_bytes n) (length out.old)) × (out.new ≡ output_by (is_count n) (integer_bytes n) out.old) }
{
    if 6400 < n {
        return Err(Refusal::BadArgument);
    }
    if out.len() < head_size(n) {
        return Err(Refusal::ShortOutput);
    }
    let end = write_head(out, 0, INTEGER, n);
    Ok(end)
}

// A refusal by its number, and how many bytes it takes: 3, not from 1 to 18; 8, the output is shorter.
pub fn error_reply(n: u64, out: &mut [u8]) -> Result<usize, Refusal>
    ensures { (result ≡ replied_by (is_refusal_number n) (error_bytes n) (length out.old)) × (out.new ≡ output_by (is_refusal_number n) (error_bytes n) out.old) }
{
    if n < 1 {
        return Err(Refusal::BadArgument);
    }
    if 18 < n {
        return Err(Refusal::BadArgument);
    }
    if out.len() < 4 + head_size(n) {
        return Err(Refusal::ShortOutput);
    }
    octets::copy_in(out, 0, b"-ERR");
    let end = write_head(out, 4, b' ', n);
    Ok(end)
}
