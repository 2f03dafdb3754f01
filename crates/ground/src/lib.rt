// The ground floor: what a call refuses, words that bytes begin with, and lent lists that are filled. Nothing here is about links.
#![tactic(auto)]

ghost use Rattle.std.specs.Prelude.{◌≡◌, ◌≤◌, length};
ghost use Rattle.ground.specs.Words.{begins};
ghost use Rattle.ground.specs.Lent.{on_front};
ghost use Rattle.ground.specs.Refusals.{number_of};

// The causes of a refusal, by their numbers.
#[derive(Clone, Copy, Debug, PartialEq, Eq)]
pub enum Refusal {
    LongText = 1,
    BadLineOne = 2,
    CutLine = 3,
    BadLine = 4,
    BadPeriod = 5,
    BadSize = 6,
    BadDelay = 7,
    BadRows = 8,
    BadCount = 9,
    BytesAfter = 10,
    BadLength = 11,
    TooManyRows = 12,
    NoOffset = 13,
    NoBuild = 14,
    BudgetSpent = 15,
    WrongTag = 16,
    BadOffset = 17,
    NotClear = 18,
    CutFile = 19,
    LongNumber = 20,
    NeedlessGroup = 21,
    LeftOver = 22,
    LongInput = 23,
    TooManyTexts = 24,
    NotOneSlot = 25,
}

impl Refusal {
    pub fn number(self) -> u32
        ensures { result ≡ number_of self }
    {
        self as u32
    }
}

// The first fault: its cause, and the byte or the row where it is.
#[derive(Clone, Copy, Debug, PartialEq, Eq)]
pub struct Fault {
    pub refusal: Refusal,
    pub place: usize,
}

// The word stands in front.
pub fn begins(word: &[u8], bytes: &[u8]) -> bool
    ensures { result ≡ begins word.now bytes.now }
{
    bytes.starts_with(word)
}

// The front of `to` is replaced by `from`.
pub fn copy_out<T: Copy>(from: &[T], to: &mut [T])
    requires { length from.now ≤ length to.old }
    ensures { to.new ≡ on_front from.now to.old }
{
    to[..from.len()].copy_from_slice(from);
}
