// A string as a bulk string.

ghost use Rattle.std.specs.Prelude.{◌≡◌, List, ℕ, ◌+◌, ◌*◌, ◌≤◌, ◌<◌, length};
ghost use Rattle.octets.specs.Place.{area, put};
ghost use Rattle.decimal.specs.Text.{text_of};
ghost use Rattle.listpack.specs.Known.{ElementAt, ElementsAt, string_at, after_at};
ghost use Rattle.resp.specs.Reply.{bulk};
ghost use Rattle.node_reply.specs.Sizes.{strings_size};

use node_read::Passed;
use resp::BULK;

// How many bytes a string of n bytes takes.
pub fn bulk_size(n: usize) -> usize
    requires { n < 4096 }
    ensures { ((x : List ℕ) → n ≡ length x → result ≡ length (bulk x)) × (result ≤ n + 25) }
{
    resp::head_size(n as u64) + n + 2
}

// The length of the string of the element at a place.
fn string_len(s: &[u8], at: usize) -> usize
    requires { ElementAt s.now at }
    ensures { (result ≡ length (string_at s.now at)) × (result < 4096) }
{
    let t = listpack::known_text(s, at);
    if t == 0 {
        return decimal::text_size(listpack::known_integer(s, at));
    }
    t - 1
}

// How many bytes the strings of n elements take, from a place on.
pub fn strings_size(s: &[u8], at: usize, n: usize) -> usize
    requires { (ElementsAt n s.now at) × (n < 256) }
    ensures { (result ≡ strings_size n s.now at) × (result ≤ 4120 * n) }
{
    let mut size = 0;
    let mut to = at;
    for _ in 0..n {
        size += bulk_size(string_len(s, to));
        to += listpack::known_size(s, to);
    }
    size
}

// A text, from its place on; the answer is the place after it.
fn put_text(s: &[u8], from: usize, len: usize, out: &mut [u8], to: usize) -> usize
    requires { (from + len ≤ length s.now) × (to + length (bulk (area from len s.now)) ≤ length out.old) }
    ensures { (result ≡ to + length (bulk (area from len s.now))) × (out.new ≡ put out.old to (bulk (area from len s.now))) }
{
    let at = resp::write_head(out, to, BULK, len as u64);
    let end = from + len;
    octets::copy_in(out, at, &s[from..end]);
    resp::write_end(out, at + len)
}

// The text of an integer; the answer is the place after it.
fn put_number(p: u64, out: &mut [u8], to: usize) -> usize
    requires { to + length (bulk (text_of p)) ≤ length out.old }
    ensures { (result ≡ to + length (bulk (text_of p))) × (out.new ≡ put out.old to (bulk (text_of p))) }
{
    let n = decimal::text_size(p);
    let at = resp::write_head(out, to, BULK, n as u64);
    decimal::write_text(out, at, p);
    resp::write_end(out, at + n)
}

// The string of the element at a place.
pub fn put_bulk(s: &[u8], at: usize, out: &mut [u8], to: usize) -> Passed
    requires { (ElementAt s.now at) × (to + length (bulk (string_at s.now at)) ≤ length out.old) }
    ensures { (result.next ≡ after_at s.now at) × (result.to ≡ to + length (bulk (string_at s.now at))) × (out.new ≡ put out.old to (bulk (string_at s.now at))) }
{
    let t = listpack::known_text(s, at);
    let next = at + listpack::known_size(s, at);
    if t == 0 {
        let end = put_number(listpack::known_integer(s, at), out, to);
        return Passed { next, to: end };
    }
    let from = at + listpack::known_start(s, at);
    let end = put_text(s, from, t - 1, out, to);
    Passed { next, to: end }
}
