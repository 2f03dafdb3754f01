// What a line says by itself, or what is wrong with it.
ghost use Rattle.std.specs.Prelude.{◌≡◌, true};
ghost use Rattle.ground.specs.Judging.{first};
ghost use Rattle.ground.specs.Refusals.{judged};
ghost use Rattle.text.specs.Faults.{is_last, title_faults};
ghost use Rattle.text.specs.Steps.{head_said, line_said, numbers_say, pair_says, row_says, delay_says, last_says};

use crate::{bytes, decimal};
use ground::{Fault, Refusal};
use link::Link;
use link::limits::{MAX_DELAY, MAX_ROWS};

// The length of `end` and a space.
const END_WORD: usize = 4;

// The first two lines: the link, and where the rows begin.
#[derive(Clone, Copy)]
pub(crate) struct Head {
    pub(crate) link: Link,
    pub(crate) at: usize,
}

// A line behind them: a row with its delay, or the last one, and the place behind it.
#[derive(Clone, Copy)]
pub(crate) enum Line {
    More { delay: u32, next: usize },
    Last { next: usize },
}

// A line in its text: its bytes without byte 10, the place of the first, and the place behind it.
#[derive(Clone, Copy)]
pub(crate) struct Placed<'a> {
    pub(crate) bytes: &'a [u8],
    pub(crate) at: usize,
    pub(crate) next: usize,
}

// Two numbers with one space between them.
fn two_numbers(line: &[u8]) -> Option<Link>
    ensures { result ≡ numbers_say line.now }
{
    let k = bytes::find(line, b' ')?;
    let period = decimal::read(&line[..k])?;
    let size = decimal::read(&line[k + 1..])?;
    Some(Link { period, size })
}

impl Placed<'_> {
    // A fault of the line is at its first byte.
    fn fault(self, refusal: Refusal) -> Fault
        ensures { (result.refusal ≡ refusal) × (result.place ≡ self.entry.at) }
    {
        Fault {
            refusal,
            place: self.at,
        }
    }

    // Line one: 2.
    pub(crate) fn title(self) -> Result<(), Fault>
        ensures { judged result ≡ first (title_faults self.entry.bytes.now self.entry.at) }
    {
        if self.bytes != b"pma 1".as_slice() {
            return Err(self.fault(Refusal::BadLineOne));
        }
        Ok(())
    }

    // Line two: 4, 5, 6.
    pub(crate) fn pair(self) -> Result<Head, Fault>
        ensures { head_said result ≡ pair_says self.entry.bytes.now self.entry.at self.entry.next }
    {
        let Some(link) = two_numbers(self.bytes) else {
            return Err(self.fault(Refusal::BadLine));
        };
        // a `match`: with `map_err(..)?` the proof loses what `fault` says
        match link::judge::link_values(link) {
            Ok(_) => Ok(Head {
                link,
                at: self.next,
            }),
            Err(fault) => Err(self.fault(fault.refusal)),
        }
    }

    // A line that begins with `end` and a space is the last one.
    pub(crate) fn is_last(self) -> bool
        ensures { result ≡ is_last self.entry.bytes.now }
    {
        ground::begins(b"end ", self.bytes)
    }

    // A row behind so many others: 4, 7, 8.
    pub(crate) fn row(self, rows: usize) -> Result<Line, Fault>
        ensures { line_said result ≡ row_says rows self.entry.bytes.now self.entry.at self.entry.next }
    {
        let Some(delay) = decimal::read(self.bytes) else {
            return Err(self.fault(Refusal::BadLine));
        };
        self.delay(delay, rows)
    }

    // A row whose number is read: 7, 8.
    pub(crate) fn delay(self, delay: u32, rows: usize) -> Result<Line, Fault>
        ensures { line_said result ≡ delay_says rows delay self.entry.at self.entry.next }
    {
        if delay > MAX_DELAY {
            return Err(self.fault(Refusal::BadDelay));
        }
        if rows >= MAX_ROWS {
            return Err(self.fault(Refusal::BadRows));
        }
        Ok(Line::More {
            delay,
            next: self.next,
        })
    }

    // The last line, behind so many rows: 4, 8, 9.
    pub(crate) fn last(self, rows: usize) -> Result<Line, Fault>
        requires { is_last self.bytes.now ≡ true }
        ensures { line_said result ≡ last_says rows self.entry.bytes.now self.entry.at self.entry.next }
    {
        let Some(count) = decimal::read(&self.bytes[END_WORD..]) else {
            return Err(self.fault(Refusal::BadLine));
        };
        if rows == 0 {
            return Err(self.fault(Refusal::BadRows));
        }
        if count as usize != rows {
            return Err(self.fault(Refusal::BadCount));
        }
        Ok(Line::Last { next: self.next })
    }
}
