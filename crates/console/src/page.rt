// A lent buffer that is filled with bytes, one behind the other.
ghost use Rattle.std.specs.Prelude.{◌+◌, length};
ghost use Rattle.console.specs.Printed.{max_digits, number, number_line};
ghost use Rattle.console.specs.Pages.{Room, Puts};

// The buffer, and the place behind the bytes that are put.
#[derive(Drop)]
pub(crate) struct Page<'a> {
    pub out: &'a mut [u8],
    pub end: usize,
}

// No number has more digits.
const MAX_DIGITS: usize = 20;

impl Page<'_> {
    // A fixed byte string.
    pub(crate) fn word(&mut self, bytes: &[u8])
        requires { Room self.old (length bytes.now) }
        ensures { Puts self.old bytes.now self.new }
    {
        let end = self.end + bytes.len();
        self.out[self.end..end].copy_from_slice(bytes);
        self.end = end;
    }

    // A number, in decimal: its digits are found from the last to the first, as many as it has, so this is no `for`.
    pub(crate) fn decimal(&mut self, n: u64)
        requires { Room self.old max_digits }
        ensures { Puts self.old (number n) self.new }
    {
        let mut digits = [0u8; MAX_DIGITS];
        let mut from = MAX_DIGITS;
        let mut rest = n;
        loop {
            from -= 1;
            digits[from] = b'0' + (rest % 10) as u8;
            if rest < 10 {
                break;
            }
            rest /= 10;
        }
        self.word(&digits[from..]);
    }

    // A number that ends its line.
    pub(crate) fn line(&mut self, n: u64)
        requires { Room self.old (max_digits + 1) }
        ensures { Puts self.old (number_line n) self.new }
    {
        self.decimal(n);
        self.word(b"\n");
    }
}
