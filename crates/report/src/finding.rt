// What a saved file holds of a field: the file is loaded into a store, and the store is asked.

ghost use Rattle.std.specs.Prelude.{◌≡◌, ◌*◌, length};
ghost use Rattle.stream.specs.Reply.{reply_of};
ghost use Rattle.report.specs.Printed.{finding_in};
ghost use Rattle.report.specs.Written.{answer_of, is_done};

use id::Id;
use refusal::Refusal;
use state::State;
use stream::Reply;

fn is_done(r: Reply) -> bool
    ensures { result ≡ is_done r }
{
    matches!(r, Reply::Done)
}

// With 64 slots load refuses with 16 alone: a snapshot has at most 64 nodes, so never with 17.
pub fn find(store: &mut [u8], state: &mut State, file: &[u8], name: &[u8]) -> Reply
    requires { length store.old ≡ 64 * 4096 }
    ensures { result ≡ reply_of (answer_of (finding_in file.now name.now)) }
{
    if 1000 < name.len() {
        return Reply::Refused(Refusal::BadArgument);
    }
    let loaded = stream_load::load(store, state, file);
    if !is_done(loaded) {
        return Reply::Refused(Refusal::NoSnapshot);
    }
    stream_report::report(store, state, name, Id::LEAST, Id::GREATEST)
}
