// One message of a range reply, as a slip.

ghost use Rattle.std.specs.Prelude.{◌≡◌, false, ◌≤◌, length, drop, Some, is_none};
ghost use Rattle.octets.specs.Place.{put};
ghost use Rattle.slip.specs.Slip.{slip};
ghost use Rattle.resp.specs.Parse.{cut_pairs, parse_reply};
ghost use Rattle.resp_read.specs.Answer.{read_by, pairs_by, picked_by, picked_output};

use crate::entry::{entries, opening, pairs};
use crate::part::{bulk, head};
use crate::reading::{ReplyRead, read};
use id::Id;
use refusal::Refusal;

// A message's ID and the size of its slip.
#[derive(Clone, Copy)]
pub struct Picked {
    pub id: Id,
    pub size: usize,
}

// The slip of so many pairs, from the start of the output.
fn write_slip(out: &mut [u8], s: &[u8], at: usize, n: usize)
    requires { (is_none (cut_pairs n (drop at s.now)) ≡ false) × (n ≤ 32) × (length (slip (pairs_by (cut_pairs n (drop at s.now)))) ≤ length out.old) }
    ensures { out.new ≡ put out.old 0 (slip (pairs_by (cut_pairs n (drop at s.now)))) }
{
    out[0] = n as u8;
    let mut next = at;
    let mut to = 1;
    for _ in 0..n {
        let a = bulk(s, next).unwrap();
        let from = next + resp::head_size(a as u64);
        let mid = from + a;
        let b = bulk(s, mid + 2).unwrap();
        let start = mid + 2 + resp::head_size(b as u64);
        let end = start + b;
        to = slip::write_slip_string(out, to, &s[from..mid]);
        to = slip::write_slip_string(out, to, &s[start..end]);
        next = end + 2;
    }
}

// Of a range reply of so many messages. The reply is judged, so each part that is read is there.
fn message_of(
    reply: &[u8],
    count: u64,
    place: u64,
    out: &mut [u8],
) -> Result<Option<Picked>, Refusal>
    requires { read_by (parse_reply reply.now) ≡ Some (ReplyRead.Range count) }
    ensures { (result ≡ picked_by (parse_reply reply.now) place (length out.old)) × (out.new ≡ picked_output (parse_reply reply.now) place out.old) }
{
    if count <= place {
        return Ok(None);
    }
    let first = head(reply, 0, resp::ARRAY).unwrap();
    let from = entries(reply, first.next, place, Id::LEAST).unwrap();
    let o = opening(reply, from).unwrap();
    let p = pairs(reply, o.next, o.pairs).unwrap();
    if out.len() < p.slip {
        return Err(Refusal::ShortOutput);
    }
    write_slip(out, reply, o.next, o.pairs);
    let id = o.id;
    Ok(Some(Picked { id, size: p.slip }))
}

// The message at a place, from 0, as a slip, or none there. 3: not a range reply. 8: the output is shorter than the slip.
pub fn message_at(reply: &[u8], place: u64, out: &mut [u8]) -> Result<Option<Picked>, Refusal>
    ensures { (result ≡ picked_by (parse_reply reply.now) place (length out.old)) × (out.new ≡ picked_output (parse_reply reply.now) place out.old) }
{
    let Some(ReplyRead::Range(count)) = read(reply) else {
        return Err(Refusal::BadArgument);
    };
    message_of(reply, count, place, out)
}
