// Bytes: where one comes first.
ghost use Rattle.std.specs.Prelude.{◌≡◌, position, nat_eq};

// The place of the first such byte.
pub(crate) fn find(bytes: &[u8], byte: u8) -> Option<usize>
    ensures { result ≡ position (λ x. nat_eq x byte) bytes.now }
{
    bytes.iter().position(|other| *other == byte)
}
