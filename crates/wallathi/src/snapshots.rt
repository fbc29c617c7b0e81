// The snapshot of what a store holds, and a store made of one.

ghost use Rattle.std.specs.Prelude.{[], ◌∷◌};
ghost use Rattle.stream.specs.Promise.{lent};
ghost use Rattle.snapshot.specs.Command.{save, load};
ghost use Rattle.wallathi.specs.Export.{seen};
ghost use Rattle.wallathi.specs.Run.{call, Meets};

use crate::known::known;
use crate::telling;
use state::State;

#[unsafe(no_mangle)]
pub extern "C" fn wallathi_save(store: &[u8], state: &State, out: &mut [u8], len: &mut u64) -> u32
    ensures { Meets (call save (len.old ∷ []) out.old) (lent store.now state.now) (seen result (len.new ∷ []) out.new) (lent store.now state.now) }
{
    let r = stream_save::save(store, state, out);
    known(store);
    known(state);
    telling::tell_number(r, len)
}

#[unsafe(no_mangle)]
pub extern "C" fn wallathi_load(store: &mut [u8], state: &mut State, file: &[u8]) -> u32
    ensures { Meets (call (λ _. load file.now) [] []) (lent store.old state.old) (seen result [] []) (lent store.new state.new) }
{
    let r = stream_load::load(store, state, file);
    known(store);
    known(state);
    telling::tell(r)
}
