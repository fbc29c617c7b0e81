// Where a name stands among the names of a node's master.

ghost use Rattle.std.specs.Prelude.{◌≡◌};
ghost use Rattle.listpack.specs.Known.{ElementsAt, strings_at};
ghost use Rattle.node_sample.specs.Sample.{index_of, asked_of};

// How many names the master has, where they lie, and how many stand before the asked one: all where it is not among them.
#[derive(Clone, Copy)]
pub struct Asked {
    pub names: usize,
    pub fields: usize,
    pub before: usize,
}

// How many of n strings stand before the first that is the name.
fn find_name(s: &[u8], at: usize, n: usize, name: &[u8]) -> usize
    requires { ElementsAt n s.now at }
    ensures { result ≡ index_of name.now (strings_at n s.now at) }
{
    let mut to = at;
    for k in 0..n {
        if listpack::known_is(s, to, name) {
            return k;
        }
        to += listpack::known_size(s, to);
    }
    n
}

pub fn ask(s: &[u8], names: usize, fields: usize, name: &[u8]) -> Asked
    requires { ElementsAt names s.now fields }
    ensures { result ≡ asked_of name.now s.now names fields }
{
    Asked {
        names,
        fields,
        before: find_name(s, fields, names, name),
    }
}
