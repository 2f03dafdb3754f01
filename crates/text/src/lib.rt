// The reader of the text table: any bytes end in a table, or in a numbered refusal at its byte.
#![tactic(auto)]

mod bytes;
mod decimal;
mod judge;
pub mod limits;

ghost use Rattle.std.specs.Prelude.{◌≡◌, true, ◌≤◌, length, IfOk, IfErr};
ghost use Rattle.ground.specs.Protocol.{gives};
ghost use Rattle.link.specs.Limits.{max_rows};
ghost use Rattle.text.specs.Answer.{said, reading};
ghost use Rattle.text.specs.TextAnswer.{text_said, reading_text};
ghost use Rattle.text.specs.Steps.{head_said, line_said, head_says, second_says, line_says, NumberLine, LineAt, CutAt, Kept, Rows};

use crate::judge::{Head, Line, Placed};
use crate::limits::MAX_TEXT;
use ground::{Fault, Refusal};
use link::Link;
use link::limits::MAX_ROWS;

// What a text says: its link and the number of its rows.
#[derive(Clone, Copy, Debug, PartialEq, Eq)]
pub struct Table {
    pub link: Link,
    pub rows: usize,
}

// The same for a text that may have bytes behind it: its table, and the place behind its last line.
#[derive(Clone, Copy, Debug, PartialEq, Eq)]
pub struct Text {
    pub link: Link,
    pub rows: usize,
    pub end: usize,
}

// A text and nothing behind it: 1, the faults of its lines, 10, 11; or its table, with the delays in the front of the list.
pub fn read_table(text: &[u8], delays: &mut [u32]) -> Result<Table, Fault>
    ensures { gives (said result) delays.new ≡ reading text.now delays.old }
{
    if text.len() > MAX_TEXT {
        return Err(Fault {
            refusal: Refusal::LongText,
            place: 0,
        });
    }
    let mut kept = [0u32; MAX_ROWS];
    let Text { link, rows, end } = read_lines(text, &mut kept)?;
    if end < text.len() {
        return Err(Fault {
            refusal: Refusal::BytesAfter,
            place: end,
        });
    }
    if delays.len() < rows {
        return Err(Fault {
            refusal: Refusal::BadLength,
            place: 0,
        });
    }
    ground::copy_out(&kept[..rows], delays);
    Ok(Table { link, rows })
}

// A text that may have bytes behind it: the first fault of its lines; or its table, with the delays in the front of the list.
pub fn read_text(text: &[u8], delays: &mut [u32; MAX_ROWS]) -> Result<Text, Fault>
    ensures { gives (text_said result) delays.new ≡ reading_text text.now delays.old }
{
    let mut kept = [0u32; MAX_ROWS];
    let whole = read_lines(text, &mut kept)?;
    ground::copy_out(&kept[..whole.rows], delays);
    Ok(whole)
}

// The lines from the start, up to the last one or the first fault. The delays are kept as they come.
fn read_lines(text: &[u8], kept: &mut [u32; MAX_ROWS]) -> Result<Text, Fault>
    ensures said { Kept text.now (text_said result) kept.new }
    ensures few { IfOk result (λ text. text.rows ≤ max_rows) }
{
    let head = first_lines(text)?;
    read_rows(text, head, kept)
}

// The lines behind line two, the first of which begins at `head.at`.
fn read_rows(text: &[u8], head: Head, kept: &mut [u32; MAX_ROWS]) -> Result<Text, Fault>
    requires { Rows head.link head.at ≡ head_says text.now }
    ensures said { Kept text.now (text_said result) kept.new }
    ensures few { IfOk result (λ text. text.rows ≤ max_rows) }
{
    let mut at = head.at;
    let mut rows: usize = 0;
    // no `for` over the places: the last line ends the loop, and it may stand behind 64 rows
    loop {
        match next_line(text, at, rows)? {
            Line::Last { next } => {
                return Ok(Text {
                    link: head.link,
                    rows,
                    end: next,
                });
            }
            Line::More { delay, next } => {
                kept[rows] = delay;
                at = next;
                rows += 1;
            }
        }
    }
}

// The line that begins at `at`, up to its byte 10. Where the text ends before it: 3.
fn line_at(text: &[u8], at: usize) -> Result<Placed<'_>, Fault>
    requires { at ≤ length text.now }
    ensures whole { IfOk result (λ line. LineAt text.now at line.bytes.now line.at line.next) }
    ensures cut { IfErr result (λ fault. CutAt text.now at fault) }
{
    let Some(size) = bytes::find(&text[at..], b'\n') else {
        return Err(Fault {
            refusal: Refusal::CutLine,
            place: at,
        });
    };
    let end = at + size;
    Ok(Placed {
        bytes: &text[at..end],
        at,
        next: end + 1,
    })
}

// Lines one and two: 3, 2, 3, 4, 5, 6.
fn first_lines(text: &[u8]) -> Result<Head, Fault>
    ensures { head_said result ≡ head_says text.now }
{
    let line = line_at(text, 0)?;
    line.title()?;
    second(text, line.next)
}

// Line two, which begins at `at`: 3, 4, 5, 6.
fn second(text: &[u8], at: usize) -> Result<Head, Fault>
    requires { at ≤ length text.now }
    ensures { head_said result ≡ second_says text.now at }
{
    line_at(text, at)?.pair()
}

// A line behind so many rows, which begins at `at`. Nearly all are a number and byte 10, which one look at each byte tells.
fn next_line(text: &[u8], at: usize, rows: usize) -> Result<Line, Fault>
    requires { at ≤ length text.now }
    ensures { line_said result ≡ line_says text.now at rows }
{
    let front = decimal::digits(&text[at..]);
    let end = at + front.digits;
    if is_number(text, at, end) {
        let line = Placed {
            bytes: &text[at..end],
            at,
            next: end + 1,
        };
        return line.delay(front.value, rows);
    }
    any_line(text, at, rows)
}

// The digits from `at` to `end` are a number, and their line ends there.
fn is_number(text: &[u8], at: usize, end: usize) -> bool
    requires { (at ≤ end) × (end ≤ length text.now) }
    ensures { result ≡ true → NumberLine text.now at end }
{
    at < end && end < text.len() && text[end] == b'\n' && !decimal::leading_zero(&text[at..end])
}

// Any line behind so many rows, which begins at `at`: 3, then what is wrong with it by itself.
fn any_line(text: &[u8], at: usize, rows: usize) -> Result<Line, Fault>
    requires { at ≤ length text.now }
    ensures { line_said result ≡ line_says text.now at rows }
{
    let line = line_at(text, at)?;
    if line.is_last() {
        return line.last(rows);
    }
    line.row(rows)
}
