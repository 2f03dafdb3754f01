// The file reader: it keeps the caller's bytes and its own place in them, a thin struct over the steps of `planfile`.
#![tactic(auto)]

ghost use Rattle.std.specs.Prelude.{◌≡◌, length};
ghost use Rattle.ground.specs.Protocol.{gives};
ghost use Rattle.planfile.specs.Format.{tag};
ghost use Rattle.planfile.specs.Answer.{lists, read_said, read_gives, IsFileOf};
ghost use Rattle.filereader.specs.Held.{ReadsNumber};

use ground::Fault;
use planfile::{BadNumber, Plan, Read, reader};

#[derive(Clone, Copy, Debug, PartialEq, Eq)]
pub struct FileReader<'a> {
    pub bytes: &'a [u8],
    pub at: usize,
}

// What was read, and the reader after it.
#[derive(Clone, Copy, Debug, PartialEq, Eq)]
pub struct NumberRead<'a, R> {
    pub reader: FileReader<'a>,
    pub taken: Result<Read<u32>, BadNumber<R>>,
}

// The tag has four bytes.
const AFTER_TAG: usize = 4;

impl<'a> FileReader<'a> {
    // A reader of the caller's bytes, which stands after the tag.
    pub fn open(bytes: &'a [u8]) -> FileReader<'a>
        ensures { (result.bytes ≡ bytes.entry) × (result.at ≡ length tag) }
    {
        FileReader {
            bytes,
            at: AFTER_TAG,
        }
    }

    // The number at the reader's place, or why it is none, and the reader moved past it.
    pub fn read_number<R: Copy>(self, low: u32, high: u32, fault: R) -> NumberRead<'a, R>
        ensures { ReadsNumber self.entry low high fault result }
    {
        let taken = reader::take_number(self.bytes, self.at, low, high, fault);
        NumberRead {
            reader: FileReader {
                at: reader::after(self.at, taken),
                ..self
            },
            taken,
        }
    }
}

// Reads a plan into the fronts of the two lists: the header at the reader's place, and the rest from where it stands after that.
pub fn read_plan(bytes: &[u8], delays: &mut [u32], offsets: &mut [u32]) -> Result<Plan, Fault>
    ensures answer { gives (read_said result) (lists delays.new offsets.new)
        ≡ read_gives bytes.now delays.old offsets.old }
    ensures file_of { IsFileOf result bytes.now delays.new offsets.new }
{
    let start = FileReader::open(bytes);
    let head = reader::read_header(start.bytes, start.at);
    let at_rows = FileReader {
        at: reader::after(start.at, head),
        ..start
    };
    reader::read_rest(at_rows.bytes, at_rows.at, head, delays, offsets)?
}
