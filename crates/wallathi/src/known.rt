// That lent areas are bytes: what a function knows of them by their type, said to its caller. It leaves no code.

ghost use Rattle.octets.specs.Bytes.{Bytes};

fn nothing() {}

pub fn known(s: &[u8])
    ensures { Bytes s.now }
{
    nothing();
}
