// The size of an element, without writing it.

ghost use Rattle.std.specs.Prelude.{◌≡◌, ◌<◌, length};
ghost use Rattle.listpack.specs.Element.{integer, encode_item, element_size, text_size};

use crate::form::{back_size, body_size, head_size};

pub fn integer_size(p: u64) -> usize
    ensures { result ≡ length (encode_item (integer p)) }
{
    let n = body_size(p);
    n + back_size(n)
}

fn text_size(l: usize) -> usize
    requires { l < 4096 }
    ensures { result ≡ text_size l }
{
    let n = head_size(l) + l;
    n + back_size(n)
}

// 0 for a string that is too long to have an element. Every caller's is short, so that each would open an Option that is never None.
pub fn element_size(s: &[u8]) -> usize
    ensures { result ≡ element_size s.now }
{
    if 4096 <= s.len() {
        return 0;
    }
    let found = decimal::recognise(s);
    match found {
        Some(p) => integer_size(p),
        None => text_size(s.len()),
    }
}
