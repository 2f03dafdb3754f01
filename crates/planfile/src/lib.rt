// The plan file: a plan written to a file reads back the same, and each accepted file is the only one for its plan.
#![tactic(auto)]

mod groups;
pub mod reader;
mod writer;

ghost use Rattle.std.specs.Prelude.{◌≡◌};
ghost use Rattle.ground.specs.Protocol.{gives};
ghost use Rattle.ground.specs.Refusals.{number_of};
ghost use Rattle.planfile.specs.Number.{refusal_of};
ghost use Rattle.planfile.specs.Answer.{refused_as, written_said, write_gives};
ghost use Rattle.planfile.specs.declared.BadNumber.TheVariants.{Malformed as BadForm};

use crate::writer::ROOM;
use ground::{Fault, Refusal};
use link::Link;

// What the bytes from a place on say of a number, and how many bytes it takes.
#[derive(Clone, Copy)]
struct Number {
    value: u32,
    length: usize,
}

// What is wrong with a number's form.
#[derive(Clone, Copy, Debug, PartialEq, Eq)]
pub enum Malformed {
    Cut,
    TooLong,
    Needless,
}

impl From<Malformed> for Refusal {
    ghost from_gives = { λ malformed refusal. refusal ≡ refusal_of malformed };

    fn from(malformed: Malformed) -> Refusal {
        match malformed {
            Malformed::Cut => Refusal::CutFile,
            Malformed::TooLong => Refusal::LongNumber,
            Malformed::Needless => Refusal::NeedlessGroup,
        }
    }
}

// Why a number is not taken: its form, or its range, for which the caller has a refusal of its own.
#[derive(Clone, Copy, Debug, PartialEq, Eq)]
pub enum BadNumber<R> {
    Malformed(Malformed),
    OutOfRange(R),
}

impl<R> From<Malformed> for BadNumber<R> {
    ghost from_gives = { λ malformed bad. bad ≡ BadForm malformed };

    fn from(malformed: Malformed) -> BadNumber<R> {
        BadNumber::Malformed(malformed)
    }
}

impl From<BadNumber<Refusal>> for Refusal {
    ghost from_gives = { λ bad refusal. number_of refusal ≡ refused_as number_of bad };

    fn from(bad: BadNumber<Refusal>) -> Refusal {
        match bad {
            BadNumber::Malformed(malformed) => Refusal::from(malformed),
            BadNumber::OutOfRange(refusal) => refusal,
        }
    }
}

// What was read at a place, and the place after it.
#[derive(Clone, Copy, Debug, PartialEq, Eq)]
pub struct Read<T> {
    pub got: T,
    pub next: usize,
}

// One row of the file.
#[derive(Clone, Copy)]
struct Row {
    delay: u32,
    offset: u32,
}

// A plan without its rows: they follow the header, and once they are read they stand in the fronts of the two lent lists.
#[derive(Clone, Copy, Debug, PartialEq, Eq)]
pub struct Plan {
    pub link: Link,
    pub rows: usize,
}

// "PMA" and the version.
const TAG: [u8; 4] = *b"PMA\x01";

// Writes a clear plan into the front of the buffer, and answers the number of its bytes.
pub fn write_plan(
    link: Link,
    delays: &[u32],
    offsets: &[u32],
    buffer: &mut [u8],
) -> Result<usize, Fault>
    ensures { gives (written_said result) buffer.new
        ≡ write_gives link delays.now offsets.now buffer.old }
{
    checker::judge_clear(link, delays, offsets)?;
    let mut file = [0u8; ROOM];
    ground::copy_out(&TAG, &mut file);
    let at_rows = writer::put_header(link, delays.len(), &mut file, TAG.len());
    let length = writer::put_rows(delays, offsets, &mut file, at_rows);
    if buffer.len() < length {
        return Err(Fault {
            refusal: Refusal::BadLength,
            place: 0,
        });
    }
    ground::copy_out(&file[..length], buffer);
    Ok(length)
}
