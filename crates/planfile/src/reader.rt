// The reader's steps, over a slice and a place in it: the struct that holds both stands above them, in `filereader`.
ghost use Rattle.std.specs.Prelude.{◌≡◌, ℕ, [], ◌≤◌, ◌<◌, length, take, Ok};
ghost use Rattle.ground.specs.Refusals.{number_of as refusal_number};
ghost use Rattle.planfile.specs.Bytes.{Bytes};
ghost use Rattle.planfile.specs.FileMeaning.{number as number_of, header, tag_fault, tagged, row, rows as rows_of};
ghost use Rattle.planfile.specs.Answer.{taken_as, RefusesOwn, taken, place_after, headed, HeaderRanges, InRange, rowed, rowsed};
ghost use Rattle.planfile.specs.Answer.{Gives, closes, rest_gives, GivesRest};

use crate::{BadNumber, Plan, Read, Row, TAG, groups};
use ground::{Fault, Refusal};
use link::Link;
use link::limits::{MAX_DELAY, MAX_PERIOD, MAX_ROWS};

// The number at a place: its form, then its range, for which the caller has a refusal of its own.
pub fn take_number<R: Copy>(
    bytes: &[u8],
    at: usize,
    low: u32,
    high: u32,
    fault: R,
) -> Result<Read<u32>, BadNumber<R>>
    ensures number { (f : R → ℕ) → taken_as f at result ≡ number_of bytes.now at low high (f fault) }
    ensures own { RefusesOwn fault result }
{
    let number = groups::number_at(bytes, at)?;
    if number.value < low || number.value > high {
        return Err(BadNumber::OutOfRange(fault));
    }
    Ok(Read {
        got: number.value,
        next: at + number.length,
    })
}

// The place after what was read at a place; what was refused is not passed over.
pub fn after<T: Copy, E: Copy>(at: usize, got: Result<Read<T>, E>) -> usize
    ensures { result ≡ place_after at got }
{
    got.map_or(at, |read| read.next)
}

// The number at a place, and the refusal that a number out of its range gets there.
fn number_in(
    bytes: &[u8],
    at: usize,
    low: u32,
    high: u32,
    refusal: Refusal,
) -> Result<Read<u32>, Fault>
    ensures { taken result ≡ number_of bytes.now at low high (refusal_number refusal) }
{
    take_number(bytes, at, low, high, refusal).map_err(|bad| Fault {
        refusal: Refusal::from(bad),
        place: at,
    })
}

// Period, size and the number of rows.
fn read_numbers(bytes: &[u8], at: usize) -> Result<Read<Plan>, Fault>
    ensures { headed result ≡ header bytes.now at }
{
    let period = number_in(bytes, at, 1, MAX_PERIOD, Refusal::BadPeriod)?;
    let size = number_in(bytes, period.next, 1, period.got, Refusal::BadSize)?;
    let rows = number_in(bytes, size.next, 1, MAX_ROWS as u32, Refusal::BadRows)?;
    Ok(Read {
        got: Plan {
            link: Link {
                period: period.got,
                size: size.got,
            },
            rows: rows.got as usize,
        },
        next: rows.next,
    })
}

// What is wrong with a file that does not begin with the tag: it ends inside it, or it is none.
fn tag_refusal(bytes: &[u8]) -> Refusal
    ensures { refusal_number result ≡ tag_fault bytes.now }
{
    if TAG.starts_with(bytes) {
        return Refusal::CutFile;
    }
    Refusal::WrongTag
}

// The tag, and the header at a place.
pub fn read_header(bytes: &[u8], at: usize) -> Result<Read<Plan>, Fault>
    ensures { (headed result ≡ tagged bytes.now at) × Bytes bytes.now }
{
    if !bytes.starts_with(&TAG) {
        return Err(Fault {
            refusal: tag_refusal(bytes),
            place: 0,
        });
    }
    read_numbers(bytes, at)
}

// Delay and offset of one row.
fn read_row(bytes: &[u8], at: usize, period: u32) -> Result<Read<Row>, Fault>
    requires { 0 < period }
    ensures { rowed result ≡ row bytes.now period at }
{
    let delay = number_in(bytes, at, 0, MAX_DELAY, Refusal::BadDelay)?;
    let offset = number_in(bytes, delay.next, 0, period - 1, Refusal::BadOffset)?;
    Ok(Read {
        got: Row {
            delay: delay.got,
            offset: offset.got,
        },
        next: offset.next,
    })
}

// All rows, into the front of two lists, and the place after the last.
fn read_rows(
    bytes: &[u8],
    from: usize,
    period: u32,
    rows: usize,
    delays: &mut [u32],
    offsets: &mut [u32],
) -> Result<usize, Fault>
    requires { (0 < period) × (rows ≤ length delays.old) × (rows ≤ length offsets.old) }
    ensures { rowsed result (take rows delays.new) (take rows offsets.new)
        ≡ rows_of bytes.now period rows [] [] from }
{
    let mut at = from;
    for j in 0..rows {
        // a `match`: what a refused row gives is what two must-fail edits turn
        let row = match read_row(bytes, at, period) {
            Ok(row) => row,
            Err(fault) => return Err(fault),
        };
        delays[j] = row.got.delay;
        offsets[j] = row.got.offset;
        at = row.next;
    }
    Ok(at)
}

// After the last number: 22 for bytes left over, 18, 11; then the rows are copied out.
// Delays and offsets go as two lists, as the C interface lends them.
fn close(
    bytes: &[u8],
    end: usize,
    link: Link,
    ds: &[u32],
    os: &[u32],
    delays: &mut [u32],
    offsets: &mut [u32],
) -> Result<Plan, Fault>
    ensures { Gives
        (closes bytes.now end link ds.now os.now delays.old offsets.old)
        result delays.new offsets.new }
{
    if end < bytes.len() {
        return Err(Fault {
            refusal: Refusal::LeftOver,
            place: end,
        });
    }
    checker::judge_clear(link, ds, os)?;
    if delays.len() < ds.len() || offsets.len() < os.len() {
        return Err(Fault {
            refusal: Refusal::BadLength,
            place: 0,
        });
    }
    ground::copy_out(ds, delays);
    ground::copy_out(os, offsets);
    Ok(Plan {
        link,
        rows: ds.len(),
    })
}

// The rows from a place on, and the closing, after a header that was read.
fn read_body(
    bytes: &[u8],
    at: usize,
    head: Read<Plan>,
    delays: &mut [u32],
    offsets: &mut [u32],
) -> Result<Plan, Fault>
    requires { HeaderRanges head }
    ensures { Gives (rest_gives bytes.now at (Ok head) delays.old offsets.old) result delays.new offsets.new }
{
    let header = head.got;
    let mut ds = [0u32; MAX_ROWS];
    let mut os = [0u32; MAX_ROWS];
    let rows = header.rows;
    let end = read_rows(bytes, at, header.link.period, rows, &mut ds, &mut os)?;
    close(
        bytes,
        end,
        header.link,
        &ds[..rows],
        &os[..rows],
        delays,
        offsets,
    )
}

// The same after any header: one that was refused, whatever its refusal is, is handed on.
pub fn read_rest<E: Copy>(
    bytes: &[u8],
    at: usize,
    head: Result<Read<Plan>, E>,
    delays: &mut [u32],
    offsets: &mut [u32],
) -> Result<Result<Plan, Fault>, E>
    requires { InRange head }
    ensures { GivesRest bytes.now at head delays.old offsets.old result delays.new offsets.new }
{
    let read = head?;
    Ok(read_body(bytes, at, read, delays, offsets))
}
