// Where a link leads.

ghost use Rattle.std.specs.Prelude.{◌≡◌};
ghost use Rattle.radix.specs.Record.{leads_on};

// Whether a link leads to a node.
pub fn leads(left: usize, link: usize) -> bool
    ensures { result ≡ leads_on left link }
{
    if left == 0 {
        return false;
    }
    if link == 0 {
        return false;
    }
    link <= 256
}
