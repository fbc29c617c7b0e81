// An ID in decimal, and what stands before the pairs of an entry.

ghost use Rattle.std.specs.Prelude.{◌≡◌, ◌+◌, ◌≤◌, length};
ghost use Rattle.octets.specs.Place.{put};
ghost use Rattle.decimal.specs.Text.{natural_text};
ghost use Rattle.resp.specs.Reply.{id_text, opening};

use crate::strings::bulk_size;
use id::Id;
use resp::{ARRAY, BULK};

fn id_size(id: Id) -> usize
    ensures { (result ≡ length (id_text id)) × (result ≤ 41) }
{
    decimal::natural_size(id.ms) + 1 + decimal::natural_size(id.seq)
}

// Its numbers have `ms` and `seq` digits.
fn write_id_text(d: &mut [u8], at: usize, id: Id, ms: usize, seq: usize)
    requires { (ms ≡ length (natural_text id.ms)) × (seq ≡ length (natural_text id.seq)) × (at + length (id_text id) ≤ length d.old) }
    ensures { d.new ≡ put d.old at (id_text id) }
{
    let hyphen = at + ms;
    decimal::write_sized(d, at, ms, id.ms);
    d[hyphen] = b'-';
    decimal::write_sized(d, hyphen + 1, seq, id.seq);
}

pub fn opening_size(id: Id, pairs: usize) -> usize
    requires { pairs ≤ 32 }
    ensures { (result ≡ length (opening id pairs)) × (result ≤ 112) }
{
    resp::head_size(2) + bulk_size(id_size(id)) + resp::head_size(2 * pairs as u64)
}

// The answer is the place after it.
pub fn write_opening(d: &mut [u8], at: usize, id: Id, pairs: usize) -> usize
    requires { (pairs ≤ 32) × (at + length (opening id pairs) ≤ length d.old) }
    ensures { (result ≡ at + length (opening id pairs)) × (d.new ≡ put d.old at (opening id pairs)) }
{
    let first = resp::write_head(d, at, ARRAY, 2);
    let ms = decimal::natural_size(id.ms);
    let seq = decimal::natural_size(id.seq);
    let n = ms + 1 + seq;
    let text = resp::write_head(d, first, BULK, n as u64);
    write_id_text(d, text, id, ms, seq);
    let next = resp::write_end(d, text + n);
    resp::write_head(d, next, ARRAY, 2 * pairs as u64)
}
