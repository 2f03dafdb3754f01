// The number in groups of seven bits, over a slice and a place in it.
ghost use Rattle.std.specs.Prelude.{◌≡◌, ◌+◌, ◌<◌, length, drop};
ghost use Rattle.ground.specs.Lent.{Adds};
ghost use Rattle.planfile.specs.Number.{more_groups, limit, number_bytes, read_number, number_said};

use crate::{Malformed, Number};

const GROUP: u32 = 128;

// A number has at most four bytes.
const MORE_GROUPS: usize = 3;

// The number at a place.
pub(crate) fn number_at(bytes: &[u8], at: usize) -> Result<Number, Malformed>
    ensures { number_said result ≡ read_number (drop at bytes.now) }
{
    let groups = bytes.get(at..).ok_or(Malformed::Cut)?;
    let mut value = 0;
    let mut weight = 1;
    for (i, group) in groups.iter().enumerate() {
        let b = u32::from(*group);
        value += b % GROUP * weight;
        if b < GROUP {
            if b == 0 && i > 0 {
                return Err(Malformed::Needless);
            }
            return Ok(Number {
                value,
                length: i + 1,
            });
        }
        if i == MORE_GROUPS {
            return Err(Malformed::TooLong);
        }
        weight *= GROUP;
    }
    Err(Malformed::Cut)
}

// Writes a number at a place, and answers the place after it. As many groups as it needs, so this is no `for`.
pub(crate) fn put_number(file: &mut [u8], from: usize, value: u32) -> usize
    requires { (from + more_groups < length file.old) × (value < limit more_groups) }
    ensures { Adds file.old from (number_bytes value) result file.new }
{
    let mut at = from;
    let mut left = value;
    while left >= GROUP {
        file[at] = (GROUP + left % GROUP) as u8;
        at += 1;
        left /= GROUP;
    }
    file[at] = left as u8;
    at + 1
}
