// Decimal numbers of 1 to 8 digits, with no leading zero but `0` itself.
ghost use Rattle.std.specs.Prelude.{◌≡◌};
ghost use Rattle.text.specs.Decimal.{leading_zero};
ghost use Rattle.text.specs.Steps.{InFront, number_says};

const MAX_DIGITS: usize = 8;

// So many digits in front of bytes, and their value.
#[derive(Clone, Copy)]
pub(crate) struct Front {
    pub(crate) value: u32,
    pub(crate) digits: usize,
}

// A zero before another digit.
pub(crate) fn leading_zero(bytes: &[u8]) -> bool
    ensures { result ≡ leading_zero bytes.now }
{
    bytes.len() > 1 && bytes[0] == b'0'
}

// The digits in front of the bytes, up to 8 of them.
pub(crate) fn digits(bytes: &[u8]) -> Front
    ensures { InFront bytes.now result.digits result.value }
{
    let mut value: u32 = 0;
    let front = &bytes[..bytes.len().min(MAX_DIGITS)];
    for (digits, byte) in front.iter().enumerate() {
        if !byte.is_ascii_digit() {
            return Front { value, digits };
        }
        value = value * 10 + u32::from(*byte - b'0');
    }
    Front {
        value,
        digits: front.len(),
    }
}

// The number that the bytes are.
pub(crate) fn read(bytes: &[u8]) -> Option<u32>
    ensures { result ≡ number_says bytes.now }
{
    if bytes.is_empty() || bytes.len() > MAX_DIGITS || leading_zero(bytes) {
        return None;
    }
    let front = digits(bytes);
    if front.digits < bytes.len() {
        return None;
    }
    Some(front.value)
}
