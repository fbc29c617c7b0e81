// What makes, fills and empties a store: set up, add, add by clock, delete, trim.

ghost use Rattle.std.specs.Prelude.{◌≡◌, [], ◌∷◌};
ghost use Rattle.id.specs.Id.{id_of};
ghost use Rattle.stream.specs.Command.{set_up, add, add_by_clock, delete, trim};
ghost use Rattle.stream.specs.Promise.{lent};
ghost use Rattle.wallathi.specs.Export.{seen};
ghost use Rattle.wallathi.specs.Run.{plain, Meets};
ghost use Rattle.state.specs.Layout.{state_size};

use crate::known::known;
use crate::telling;
use id::Id;
use state::{STATE_BYTES, State};

// How many bytes a state has.
#[unsafe(no_mangle)]
pub extern "C" fn wallathi_state_bytes() -> u64
    ensures { result ≡ state_size }
{
    STATE_BYTES as u64
}

#[unsafe(no_mangle)]
pub extern "C" fn wallathi_set_up(store: &mut [u8], state: &mut State) -> u32
    ensures { Meets (plain (set_up) []) (lent store.old state.old) (seen result [] []) (lent store.new state.new) }
{
    let r = stream_add::set_up(store, state);
    known(store);
    known(state);
    telling::tell(r)
}

#[unsafe(no_mangle)]
pub extern "C" fn wallathi_add(
    store: &mut [u8],
    state: &mut State,
    ms: u64,
    seq: u64,
    slip: &[u8],
    id_ms: &mut u64,
    id_seq: &mut u64,
) -> u32
    ensures { Meets (plain (add (id_of ms seq) slip.now) (id_ms.old ∷ (id_seq.old ∷ []))) (lent store.old state.old) (seen result (id_ms.new ∷ (id_seq.new ∷ [])) []) (lent store.new state.new) }
{
    let r = stream_add::add(store, state, Id::new(ms, seq), slip);
    known(store);
    known(state);
    telling::tell_id(r, id_ms, id_seq)
}

#[unsafe(no_mangle)]
pub extern "C" fn wallathi_add_by_clock(
    store: &mut [u8],
    state: &mut State,
    time: u64,
    slip: &[u8],
    id_ms: &mut u64,
    id_seq: &mut u64,
) -> u32
    ensures { Meets (plain (add_by_clock time slip.now) (id_ms.old ∷ (id_seq.old ∷ []))) (lent store.old state.old) (seen result (id_ms.new ∷ (id_seq.new ∷ [])) []) (lent store.new state.new) }
{
    let r = stream_add::add_by_clock(store, state, time, slip);
    known(store);
    known(state);
    telling::tell_id(r, id_ms, id_seq)
}

#[unsafe(no_mangle)]
pub extern "C" fn wallathi_delete(
    store: &mut [u8],
    state: &mut State,
    ms: u64,
    seq: u64,
    count: &mut u64,
) -> u32
    ensures { Meets (plain (delete (id_of ms seq)) (count.old ∷ [])) (lent store.old state.old) (seen result (count.new ∷ []) []) (lent store.new state.new) }
{
    let r = stream_delete::delete(store, state, Id::new(ms, seq));
    known(store);
    known(state);
    telling::tell_number(r, count)
}

#[unsafe(no_mangle)]
pub extern "C" fn wallathi_trim(store: &mut [u8], state: &mut State, k: u64, count: &mut u64) -> u32
    ensures { Meets (plain (trim k) (count.old ∷ [])) (lent store.old state.old) (seen result (count.new ∷ []) []) (lent store.new state.new) }
{
    let r = stream_delete::trim(store, state, k);
    known(store);
    known(state);
    telling::tell_number(r, count)
}
