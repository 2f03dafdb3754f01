// A shared link: its rows, the test of two starts, and the judging of values.
#![tactic(auto)]

pub mod judge;
pub mod limits;

ghost use Rattle.std.specs.Prelude.{◌≡◌, ◌<◌, ◌≤◌, length};
ghost use Rattle.ground.specs.Lent.{on_front};
ghost use Rattle.link.specs.Slots.{apartb, gap};
ghost use Rattle.link.specs.Rows.{span_of, second, first_near};
ghost use Rattle.link.specs.Starts.{met, firsts, seconds, crossing_number};

use crate::limits::MAX_ROWS;

#[derive(Clone, Copy, Debug, PartialEq, Eq)]
pub struct Link {
    pub period: u32,
    pub size: u32,
}

impl Link {
    // The period, and the least distance of two starts.
    pub fn circle(self) -> Circle
        ensures { (result.period ≡ self.period) × (result.span ≡ span_of self) }
    {
        Circle {
            period: self.period,
            span: self.size,
        }
    }
}

// The period, which closes on itself, and the least distance of two starts.
#[derive(Clone, Copy, Debug, PartialEq, Eq)]
pub struct Circle {
    pub period: u32,
    pub span: u32,
}

// Where a row starts in each crossing.
#[derive(Clone, Copy, Debug, PartialEq, Eq)]
pub struct Start {
    pub first: u32,
    pub second: u32,
}

// Room for the starts of all rows.
pub const NO_STARTS: [Start; MAX_ROWS] = [Start {
    first: 0,
    second: 0,
}; MAX_ROWS];

#[derive(Clone, Copy, Debug, PartialEq, Eq)]
pub enum Crossing {
    First = 1,
    Second = 2,
}

impl Crossing {
    pub fn number(self) -> u32
        ensures { result ≡ crossing_number self }
    {
        self as u32
    }
}

// The least earlier row that is met, and the crossing.
#[derive(Clone, Copy, Debug, PartialEq, Eq)]
pub struct Met {
    pub row: usize,
    pub crossing: Crossing,
}

// How far two starts are from each other, not round the period. On its own so that it compiles to no branch.
fn distance(a: u32, b: u32) -> u32
    ensures { result ≡ gap a b }
{
    a.abs_diff(b)
}

impl Circle {
    // Where a row with this delay and offset starts in the second crossing.
    pub fn second_start(self, delay: u32, offset: u32) -> u32
        requires { 0 < self.period }
        ensures { result ≡ second self.period delay offset }
    {
        let sum = u64::from(offset) + u64::from(delay);
        (sum % u64::from(self.period)) as u32
    }

    // Where it starts in both.
    pub fn start(self, delay: u32, offset: u32) -> Start
        requires { 0 < self.period }
        ensures { (result.first ≡ offset) × (result.second ≡ second self.period delay offset) }
    {
        Start {
            first: offset,
            second: self.second_start(delay, offset),
        }
    }

    // The slot `by` slots after `at`, round the period, with no division.
    pub fn turn(self, at: u32, by: u32) -> u32
        requires { (at < self.period) × (by ≤ self.period) }
        ensures { (result ≡ second self.period by at) × (result < self.period) }
    {
        let rest = self.period - by;
        if at < rest {
            return at + by;
        }
        at - rest
    }

    // Two starts are at least the span from each other, both ways round the period. Where two spans fit the period one comparison tells:
    // a distance below the span wraps, beyond all others.
    pub fn apart(self, a: u32, b: u32) -> bool
        ensures { result ≡ apartb self.period self.span a b }
    {
        let p = u64::from(self.period);
        let l = u64::from(self.span);
        let d = u64::from(distance(a, b));
        2 * l <= p && d.wrapping_sub(l) <= p - 2 * l
    }

    // The least row, of those with these starts, that a row with this one meets, and the crossing (the first if both).
    pub fn first_met(self, starts: &[Start], new: Start) -> Option<Met>
        ensures { met result
            ≡ first_near self.period self.span (firsts starts.now) (seconds starts.now) new.first new.second }
    {
        for (row, earlier) in starts.iter().enumerate() {
            if !self.apart(earlier.first, new.first) {
                return Some(Met {
                    row,
                    crossing: Crossing::First,
                });
            }
            if !self.apart(earlier.second, new.second) {
                return Some(Met {
                    row,
                    crossing: Crossing::Second,
                });
            }
        }
        None
    }
}

// The offsets of the rows with these starts go into the front of the list.
pub fn copy_offsets(starts: &[Start], offsets: &mut [u32])
    requires { length starts.now ≤ length offsets.old }
    ensures { offsets.new ≡ on_front (firsts starts.now) offsets.old }
{
    for (row, start) in starts.iter().enumerate() {
        offsets[row] = start.first;
    }
}
