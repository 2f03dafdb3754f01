// From the bytes of a text table to the bytes that the program prints.
#![tactic(auto)]

mod page;

ghost use Rattle.std.specs.Prelude.{◌≤◌, length};
ghost use Rattle.search.specs.Limits.{max_exact_rows};
ghost use Rattle.link.specs.Limits.{max_rows};
ghost use Rattle.ground.specs.Lent.{Adds};
ghost use Rattle.ground.specs.Refusals.{number_of};
ghost use Rattle.console.specs.Pages.{Room, Puts};
ghost use Rattle.console.specs.Printed.{most, found_lines, none_line, refused_line, planned, printed};

use crate::page::Page;
use ground::{Fault, Refusal};
use link::Link;
use link::limits::MAX_ROWS;
use search::Answer;

// No answer takes more bytes.
pub const MOST: usize = 256;

// What the program prints for its input stands in the front of `out`; how many bytes that is.
pub fn run(input: &[u8], out: &mut [u8; MOST]) -> usize
    ensures { Adds out.old 0 (printed input.now) result out.new }
{
    let mut delays = [0u32; MAX_ROWS];
    let mut page = Page { out, end: 0 };
    match text::read_table(input, &mut delays) {
        Ok(table) => plan(table.link, &delays[..table.rows], &mut page),
        Err(fault) => refused(fault, &mut page),
    }
    page.end
}

// Plans a table with the ceiling as budget.
fn plan(link: Link, delays: &[u32], page: &mut Page)
    requires { (length delays.now ≤ max_rows) × Room page.old most }
    ensures { Puts page.old (planned link delays.now (length delays.now)) page.new }
{
    let n = delays.len();
    let mut offsets = [0u32; MAX_ROWS];
    match search::exact(link, delays, search::ceiling(n), &mut offsets) {
        Ok(Answer::Plan { tests }) => found(tests, &offsets[..n], page),
        Ok(Answer::Nothing { tests }) => none(tests, page),
        Ok(Answer::Spent { tests: _ }) => {
            let spent = Fault {
                refusal: Refusal::BudgetSpent,
                place: 0,
            };
            refused(spent, page)
        }
        Err(fault) => refused(fault, page),
    }
}

// `found` and the tests, then one offset a line.
fn found(tests: u64, offsets: &[u32], page: &mut Page)
    requires { (length offsets.now ≤ max_exact_rows) × Room page.old most }
    ensures { Puts page.old (found_lines tests offsets.now) page.new }
{
    page.word(b"found ");
    page.line(tests);
    for offset in offsets {
        page.line(u64::from(*offset));
    }
}

// `none` and the tests.
fn none(tests: u64, page: &mut Page)
    requires { Room page.old most }
    ensures { Puts page.old (none_line tests) page.new }
{
    page.word(b"none ");
    page.line(tests);
}

// `refused`, the number and the place.
fn refused(fault: Fault, page: &mut Page)
    requires { Room page.old most }
    ensures { Puts page.old (refused_line (number_of fault.refusal) fault.place) page.new }
{
    page.word(b"refused ");
    page.decimal(u64::from(fault.refusal.number()));
    page.word(b" ");
    page.line(fault.place as u64);
}
