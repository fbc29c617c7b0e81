// report FILE NAME: the channel report (02, CR 2) of the field NAME over every message of a saved file, on standard output: six lines, or the
// number of a refusal alone. Which lines is said in specs/Printed. The exit status is 0 in either case, for the answer is what is printed, and 1
// where it cannot be written.
//
// Proved: `answer` leaves exactly these lines in `out`, whatever bytes the file has and whatever the name is, and `main` hands them to one
// write; what lies beyond the two buffers would not change the answer (proofs/Limits). No contract says which bytes a call of the system reads
// or writes: that the name is the argument's bytes, that the file's bytes are those it read, and that the lines arrive, rests on the system
// and on std's env, fs and io.

#![tactic(auto)]

mod finding;
mod input;
mod text;

ghost use Rattle.std.specs.Prelude.{◌≤◌, length};
ghost use Rattle.report.specs.Printed.{Prints};

use node::SLOT_BYTES;
use state::{STATE_BYTES, State};
use std::io;
use std::io::Write;

// As many slots as a store has at most.
const STORE_BYTES: usize = 64 * SLOT_BYTES;

// Six lines of at most 21 bytes.
const OUT_BYTES: usize = 126;

// What is printed of the file's bytes and the name, and where it ends.
fn answer(
    file: &[u8],
    name: &[u8],
    store: &mut [u8; STORE_BYTES],
    state: &mut State,
    out: &mut [u8],
) -> usize
    requires { 126 ≤ length out.old }
    ensures { Prints file.now name.now out.new result }
{
    let r = finding::find(store, state, file, name);
    text::write(out, r)
}

fn main(rt: HostRuntime) -> io::Result<()> {
    let mut name = [0u8; input::NAME_BYTES];
    let mut file = [0u8; input::FILE_BYTES];
    let mut store = [0u8; STORE_BYTES];
    let mut state = [0u8; STATE_BYTES];
    let mut out = [0u8; OUT_BYTES];
    let n = input::name(&rt, &mut name);
    let size = input::file(&rt, &mut file);
    let end = answer(
        &file[0..size],
        &name[0..n],
        &mut store,
        &mut state,
        &mut out,
    );
    io::writer(&rt).write_all(&out[0..end])
}
