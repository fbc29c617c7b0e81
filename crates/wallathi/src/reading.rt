// What is asked of the messages: next, read, field, report.

ghost use Rattle.std.specs.Prelude.{[], ◌∷◌};
ghost use Rattle.id.specs.Id.{id_of};
ghost use Rattle.stream.specs.Command.{asks, next, read, field, report};
ghost use Rattle.stream.specs.Promise.{lent};
ghost use Rattle.wallathi.specs.Export.{seen};
ghost use Rattle.wallathi.specs.Run.{call, plain, Meets};
ghost use Rattle.snapshot.specs.Command.{on_stream};

use crate::known::known;
use crate::telling;
use id::Id;
use state::State;

#[unsafe(no_mangle)]
pub extern "C" fn wallathi_next(
    store: &[u8],
    state: &State,
    ms: u64,
    seq: u64,
    id_ms: &mut u64,
    id_seq: &mut u64,
) -> u32
    ensures { Meets (plain (asks (next (id_of ms seq))) (id_ms.old ∷ (id_seq.old ∷ []))) (lent store.now state.now) (seen result (id_ms.new ∷ (id_seq.new ∷ [])) []) (lent store.now state.now) }
{
    let r = stream_read::next(store, state, Id::new(ms, seq));
    known(store);
    known(state);
    telling::tell_id(r, id_ms, id_seq)
}

#[unsafe(no_mangle)]
pub extern "C" fn wallathi_read(
    store: &[u8],
    state: &State,
    ms: u64,
    seq: u64,
    out: &mut [u8],
    len: &mut u64,
) -> u32
    ensures { Meets (call (λ n. on_stream (asks (read (id_of ms seq) n))) (len.old ∷ []) out.old) (lent store.now state.now) (seen result (len.new ∷ []) out.new) (lent store.now state.now) }
{
    let r = stream_read::read(store, state, Id::new(ms, seq), out);
    known(store);
    known(state);
    telling::tell_number(r, len)
}

#[unsafe(no_mangle)]
pub extern "C" fn wallathi_field(
    store: &[u8],
    state: &State,
    ms: u64,
    seq: u64,
    name: &[u8],
    out: &mut [u8],
    len: &mut u64,
) -> u32
    ensures { Meets (call (λ n. on_stream (asks (field (id_of ms seq) name.now n))) (len.old ∷ []) out.old) (lent store.now state.now) (seen result (len.new ∷ []) out.new) (lent store.now state.now) }
{
    let r = stream_read::field(store, state, Id::new(ms, seq), name, out);
    known(store);
    known(state);
    telling::tell_number(r, len)
}

// Signed numbers are told by their 64-bit patterns.
#[unsafe(no_mangle)]
pub extern "C" fn wallathi_report(
    store: &[u8],
    state: &State,
    name: &[u8],
    first_ms: u64,
    first_seq: u64,
    last_ms: u64,
    last_seq: u64,
    lacking: &mut u64,
    other: &mut u64,
    integers: &mut u64,
    sum: &mut u64,
    smallest: &mut u64,
    largest: &mut u64,
) -> u32
    ensures { Meets (plain (asks (report name.now (id_of first_ms first_seq) (id_of last_ms last_seq))) (lacking.old ∷ (other.old ∷ (integers.old ∷ (sum.old ∷ (smallest.old ∷ (largest.old ∷ []))))))) (lent store.now state.now) (seen result (lacking.new ∷ (other.new ∷ (integers.new ∷ (sum.new ∷ (smallest.new ∷ (largest.new ∷ [])))))) []) (lent store.now state.now) }
{
    let first = Id::new(first_ms, first_seq);
    let last = Id::new(last_ms, last_seq);
    let r = stream_report::report(store, state, name, first, last);
    known(store);
    known(state);
    telling::tell_report(r, lacking, other, integers, sum, smallest, largest)
}
