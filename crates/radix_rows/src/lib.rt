// The entries of a record in lent bytes as the rows of a table.

#![tactic(auto)]

ghost use Rattle.std.specs.Prelude.{◌≡◌, [], ◌<◌, length};
ghost use Rattle.keys.specs.Listing.{Lists};
ghost use Rattle.radix.specs.Gathering.{gathered};
ghost use Rattle.radix.specs.Record.{tree_of, entries_of};
ghost use Rattle.radix_bytes.specs.Bytes.{record_size, record_from};

mod gather;

use gather::gather;
use keys::Table;

// The entries of a record's tree, where they fit a table.
pub fn table_of(s: &[u8]) -> Option<Table>
    requires { (length s.now ≡ record_size) × ((record_from s.now).root < 256) }
    ensures { Lists (gathered [] (tree_of (record_from s.now)) []) result }
{
    let root = radix_bytes::root_of(s);
    let first = radix_bytes::child_at(s, root);
    let mut t = keys::no_rows();
    let mut path = [0u8; 16];
    gather(s, 256, first, &mut path, 0, &mut t)?;
    Some(t)
}

// The entries of a record: one judgement of it, and one walk that gathers them.
pub fn list(s: &[u8]) -> Option<Table>
    requires { length s.now ≡ record_size }
    ensures { Lists (entries_of (record_from s.now)) result }
{
    if !radix_judge::is_sound(s) {
        return None;
    }
    table_of(s)
}
