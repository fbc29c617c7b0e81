// Consumer groups.

ghost use Rattle.std.specs.Prelude.{[], ◌∷◌};
ghost use Rattle.id.specs.Id.{id_of};
ghost use Rattle.stream.specs.Command.{create_group, destroy_group, in_group, group_read, group_read_many, acknowledge, claim, next_pending, drop_consumer};
ghost use Rattle.stream.specs.Promise.{lent};
ghost use Rattle.wallathi.specs.Export.{seen};
ghost use Rattle.wallathi.specs.Run.{call, plain, Meets};
ghost use Rattle.snapshot.specs.Command.{on_stream};

use crate::known::known;
use crate::telling;
use id::Id;
use state::State;

#[unsafe(no_mangle)]
pub extern "C" fn wallathi_create_group(
    store: &[u8],
    state: &mut State,
    name: &[u8],
    start_ms: u64,
    start_seq: u64,
) -> u32
    ensures { Meets (plain (create_group name.now (id_of start_ms start_seq)) []) (lent store.now state.old) (seen result [] []) (lent store.now state.new) }
{
    let r = stream_groups::create_group(store, state, name, Id::new(start_ms, start_seq));
    known(store);
    known(state);
    telling::tell(r)
}

#[unsafe(no_mangle)]
pub extern "C" fn wallathi_destroy_group(store: &[u8], state: &mut State, name: &[u8]) -> u32
    ensures { Meets (plain (destroy_group name.now) []) (lent store.now state.old) (seen result [] []) (lent store.now state.new) }
{
    let r = stream_groups::destroy_group(store, state, name);
    known(store);
    known(state);
    telling::tell(r)
}

#[unsafe(no_mangle)]
pub extern "C" fn wallathi_group_read(
    store: &[u8],
    state: &mut State,
    group: &[u8],
    consumer: &[u8],
    time: u64,
    id_ms: &mut u64,
    id_seq: &mut u64,
) -> u32
    ensures { Meets (plain (in_group group.now (group_read consumer.now time)) (id_ms.old ∷ (id_seq.old ∷ []))) (lent store.now state.old) (seen result (id_ms.new ∷ (id_seq.new ∷ [])) []) (lent store.now state.new) }
{
    let r = stream_group_read::group_read(store, state, group, consumer, time);
    known(store);
    known(state);
    telling::tell_id(r, id_ms, id_seq)
}

#[unsafe(no_mangle)]
pub extern "C" fn wallathi_group_read_many(
    store: &[u8],
    state: &mut State,
    group: &[u8],
    consumer: &[u8],
    time: u64,
    n: u64,
    out: &mut [u8],
    len: &mut u64,
) -> u32
    ensures { Meets (call (λ room. on_stream (in_group group.now (group_read_many consumer.now time n room))) (len.old ∷ []) out.old) (lent store.now state.old) (seen result (len.new ∷ []) out.new) (lent store.now state.new) }
{
    let r = stream_batch::group_read_many(store, state, group, consumer, time, n, out);
    known(store);
    known(state);
    telling::tell_number(r, len)
}

#[unsafe(no_mangle)]
pub extern "C" fn wallathi_acknowledge(
    store: &[u8],
    state: &mut State,
    group: &[u8],
    ms: u64,
    seq: u64,
    count: &mut u64,
) -> u32
    ensures { Meets (plain (in_group group.now (acknowledge (id_of ms seq))) (count.old ∷ [])) (lent store.now state.old) (seen result (count.new ∷ []) []) (lent store.now state.new) }
{
    let r = stream_pending::acknowledge(store, state, group, Id::new(ms, seq));
    known(store);
    known(state);
    telling::tell_number(r, count)
}

#[unsafe(no_mangle)]
pub extern "C" fn wallathi_claim(
    store: &[u8],
    state: &mut State,
    group: &[u8],
    consumer: &[u8],
    least_idle: u64,
    ms: u64,
    seq: u64,
    time: u64,
) -> u32
    ensures { Meets (plain (in_group group.now (claim consumer.now least_idle (id_of ms seq) time)) []) (lent store.now state.old) (seen result [] []) (lent store.now state.new) }
{
    let id = Id::new(ms, seq);
    let r = stream_pending::claim(store, state, group, consumer, least_idle, id, time);
    known(store);
    known(state);
    telling::tell(r)
}

#[unsafe(no_mangle)]
pub extern "C" fn wallathi_next_pending(
    store: &[u8],
    state: &State,
    group: &[u8],
    consumer: &[u8],
    after_ms: u64,
    after_seq: u64,
    id_ms: &mut u64,
    id_seq: &mut u64,
    time: &mut u64,
    count: &mut u64,
    lives: &mut u64,
) -> u32
    ensures { Meets (plain (in_group group.now (next_pending consumer.now (id_of after_ms after_seq))) (id_ms.old ∷ (id_seq.old ∷ (time.old ∷ (count.old ∷ (lives.old ∷ [])))))) (lent store.now state.now) (seen result (id_ms.new ∷ (id_seq.new ∷ (time.new ∷ (count.new ∷ (lives.new ∷ []))))) []) (lent store.now state.now) }
{
    let r = stream_group_read::next_pending(
        store,
        state,
        group,
        consumer,
        Id::new(after_ms, after_seq),
    );
    known(store);
    known(state);
    telling::tell_entry(r, id_ms, id_seq, time, count, lives)
}

#[unsafe(no_mangle)]
pub extern "C" fn wallathi_drop_consumer(
    store: &[u8],
    state: &mut State,
    group: &[u8],
    consumer: &[u8],
    count: &mut u64,
) -> u32
    ensures { Meets (plain (in_group group.now (drop_consumer consumer.now)) (count.old ∷ [])) (lent store.now state.old) (seen result (count.new ∷ []) []) (lent store.now state.new) }
{
    let r = stream_pending::drop_consumer(store, state, group, consumer);
    known(store);
    known(state);
    telling::tell_number(r, count)
}
