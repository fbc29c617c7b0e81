// Replies in RESP2 (02, CR 4): of a range, of a number alone, and what is read of one.

ghost use Rattle.std.specs.Prelude.{◌≡◌, [], ◌∷◌};
ghost use Rattle.id.specs.Id.{id_of};
ghost use Rattle.resp.specs.Parse.{parse_reply};
ghost use Rattle.stream.specs.Command.{asks, range_reply};
ghost use Rattle.stream.specs.Promise.{lent};
ghost use Rattle.snapshot.specs.Command.{on_stream};
ghost use Rattle.wallathi.specs.Export.{seen};
ghost use Rattle.wallathi.specs.Run.{call, Meets};
ghost use Rattle.wallathi.specs.Replies.{integer_seen, error_seen, read_seen, place_seen};
ghost use Rattle.wallathi.specs.Telling.{code_in, length_in};

use crate::known::known;
use crate::telling;
use id::Id;
use refusal::Refusal;
use resp_read::ReplyRead;
use state::State;

#[unsafe(no_mangle)]
pub extern "C" fn wallathi_range_reply(
    store: &[u8],
    state: &State,
    first_ms: u64,
    first_seq: u64,
    last_ms: u64,
    last_seq: u64,
    out: &mut [u8],
    len: &mut u64,
) -> u32
    ensures { Meets (call (λ n. on_stream (asks (range_reply (id_of first_ms first_seq) (id_of last_ms last_seq) n))) (len.old ∷ []) out.old) (lent store.now state.now) (seen result (len.new ∷ []) out.new) (lent store.now state.now) }
{
    let first = Id::new(first_ms, first_seq);
    let last = Id::new(last_ms, last_seq);
    let r = stream_range::range_reply(store, state, first, last, out);
    known(store);
    known(state);
    telling::tell_number(r, len)
}

// The length of a reply from a number, or a refusal.
fn tell_replied(r: Result<usize, Refusal>, len: &mut u64) -> u32
    ensures { (result ≡ code_in r) × (len.new ≡ length_in r len.old) }
{
    match r {
        Ok(n) => {
            *len = n as u64;
            0
        }
        Err(refusal) => refusal.number(),
    }
}

#[unsafe(no_mangle)]
pub extern "C" fn wallathi_integer_reply(n: u64, out: &mut [u8], len: &mut u64) -> u32
    ensures { seen result (len.new ∷ []) out.new ≡ integer_seen n (len.old ∷ []) out.old }
{
    let r = resp::integer_reply(n, out);
    tell_replied(r, len)
}

#[unsafe(no_mangle)]
pub extern "C" fn wallathi_error_reply(n: u64, out: &mut [u8], len: &mut u64) -> u32
    ensures { seen result (len.new ∷ []) out.new ≡ error_seen n (len.old ∷ []) out.old }
{
    let r = resp::error_reply(n, out);
    tell_replied(r, len)
}

// The kind of a reply and its number.
fn tell_kind(k: u64, n: u64, kind: &mut u64, number: &mut u64) -> u32
    ensures { (result ≡ 0) × (kind.new ≡ k) × (number.new ≡ n) }
{
    *kind = k;
    *number = n;
    0
}

#[unsafe(no_mangle)]
pub extern "C" fn wallathi_read_reply(reply: &[u8], kind: &mut u64, number: &mut u64) -> u32
    ensures { seen result (kind.new ∷ (number.new ∷ [])) [] ≡ read_seen (kind.old ∷ (number.old ∷ [])) (parse_reply reply.now) }
{
    match resp_read::read(reply) {
        Some(ReplyRead::Range(n)) => tell_kind(1, n, kind, number),
        Some(ReplyRead::Integer(n)) => tell_kind(2, n, kind, number),
        Some(ReplyRead::Error(n)) => tell_kind(3, n, kind, number),
        None => 3,
    }
}

// The ID and the length of a message that was written.
fn tell_message(id: Id, n: usize, id_ms: &mut u64, id_seq: &mut u64, len: &mut u64) -> u32
    ensures { (result ≡ 0) × (id_ms.new ≡ id.ms) × (id_seq.new ≡ id.seq) × (len.new ≡ n) }
{
    *id_ms = id.ms;
    *id_seq = id.seq;
    *len = n as u64;
    0
}

// The message at a place, from 0, as a slip.
#[unsafe(no_mangle)]
pub extern "C" fn wallathi_reply_message(
    reply: &[u8],
    place: u64,
    out: &mut [u8],
    id_ms: &mut u64,
    id_seq: &mut u64,
    len: &mut u64,
) -> u32
    ensures { seen result (id_ms.new ∷ (id_seq.new ∷ (len.new ∷ []))) out.new ≡ place_seen place (id_ms.old ∷ (id_seq.old ∷ (len.old ∷ []))) out.old (parse_reply reply.now) }
{
    match resp_read::message_at(reply, place, out) {
        Ok(Some(picked)) => tell_message(picked.id, picked.size, id_ms, id_seq, len),
        Ok(None) => 32,
        Err(refusal) => refusal.number(),
    }
}
