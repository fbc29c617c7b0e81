// A whole reply, judged.

ghost use Rattle.std.specs.Prelude.{◌≡◌};
ghost use Rattle.resp.specs.Parse.{parse_reply, parse_range, parse_integer, parse_error};
ghost use Rattle.resp_read.specs.Answer.{read_by};

use crate::entry::entries;
use crate::part::head;
use id::Id;

// A range reply and how many messages it has, an integer, or an error reply and its number.
#[derive(Clone, Copy)]
pub enum ReplyRead {
    Range(u64),
    Integer(u64),
    Error(u64),
}

fn read_range(s: &[u8]) -> Option<ReplyRead>
    ensures { result ≡ read_by (parse_range s.now) }
{
    let n = head(s, 0, resp::ARRAY)?;
    let end = entries(s, n.next, n.value, Id::LEAST)?;
    if end < s.len() {
        return None;
    }
    Some(ReplyRead::Range(n.value))
}

fn read_integer(s: &[u8]) -> Option<ReplyRead>
    ensures { result ≡ read_by (parse_integer s.now) }
{
    let n = head(s, 0, resp::INTEGER)?;
    if 6400 < n.value {
        return None;
    }
    if n.next < s.len() {
        return None;
    }
    Some(ReplyRead::Integer(n.value))
}

fn read_error(s: &[u8]) -> Option<ReplyRead>
    ensures { result ≡ read_by (parse_error s.now) }
{
    if !s.starts_with(b"-ERR") {
        return None;
    }
    let n = head(s, 4, b' ')?;
    if n.value < 1 {
        return None;
    }
    if 18 < n.value {
        return None;
    }
    if n.next < s.len() {
        return None;
    }
    Some(ReplyRead::Error(n.value))
}

// None of a string that is no reply.
pub fn read(s: &[u8]) -> Option<ReplyRead>
    ensures { result ≡ read_by (parse_reply s.now) }
{
    if s.len() == 0 {
        return None;
    }
    if s[0] == resp::ARRAY {
        return read_range(s);
    }
    if s[0] == resp::INTEGER {
        return read_integer(s);
    }
    read_error(s)
}
