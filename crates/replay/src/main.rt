// Runs the oracle's cases through the library: a case a line on standard input, its answer and its buffers a line on standard output.
#![tactic(auto)]

mod cases;
mod kind;
mod show;

ghost use Rattle.std.specs.Prelude.{◌≤◌, length};

use cases::Case;
use kind::Kind;
use std::convert::AsSlice;
use std::io::{Input, Read};

const LARGE_BUFFER: usize = 65536;

// 4 megabytes of cases.
const MOST_BLOCKS: usize = 64;

// The room for a list of rows, for a text or a file, and for the offsets of joined texts.
const ROW_ROOM: usize = 132;

const BYTE_ROOM: usize = 1100;

const OFFSET_ROOM: usize = 2100;

fn main(rt: HostRuntime) {
    let mut space = [0; LARGE_BUFFER];
    let mut held = 0;
    for _ in 0..MOST_BLOCKS {
        held = block(&rt, &mut space, held);
    }
}

// Reads on behind the bytes that are held, runs the whole lines, and moves what is left to the front; how many bytes that is.
fn block(rt: &(impl Input + Print), space: &mut [u8], held: usize) -> usize
    requires { held ≤ length space.old }
    ensures { result ≤ length space.old }
{
    let end = held + read_full(&mut rt.reader(), &mut space[held..]);
    let rest = run(rt, &space[..end]);
    space.copy_within(rest..end, 0);
    end - rest
}

// Reads until the buffer is full, the input ends or a read fails, and answers how many bytes there are.
// The program `exact` has a function of its own: a failed read ends it, and here what came before counts.
fn read_full(input: &mut impl Read, buf: &mut [u8]) -> usize
    ensures { result ≤ length buf.new }
{
    let mut done = 0;
    while let Ok(n @ 1..) = input.read(&mut buf[done..]) {
        done += n;
    }
    done
}

// Runs each whole line, and answers where the unfinished one begins.
fn run(rt: &impl Print, text: &[u8]) -> usize
    ensures { result ≤ length text.now }
{
    let Some(last) = text.iter().rposition(|b| *b == b'\n') else {
        return 0;
    };
    for line in text[..last].split(|b| *b == b'\n') {
        answer(rt, Case::new(line));
    }
    last + 1
}

// Answers a case on a line, which is empty for a case of no kind.
fn answer(rt: &impl Print, mut case: Case<'_>) {
    let number: u64 = case.number();
    if let Ok(kind) = Kind::try_from(number) {
        answer_kind(rt, kind, case);
    }
    show::end(rt);
}

fn answer_kind(rt: &impl Print, kind: Kind, case: Case<'_>) {
    match kind {
        Kind::Check => table_and_offsets(rt, case, [0; 5], seamwhisk::seamwhisk_check),
        Kind::Report => table_and_offsets(rt, case, [0; 8], seamwhisk::seamwhisk_report),
        Kind::FirstFit => table_and_room(rt, case, seamwhisk::seamwhisk_first_fit),
        Kind::MetaOffset => table_and_room(rt, case, seamwhisk::seamwhisk_meta_offset),
        Kind::OneSlot => table_and_room(rt, case, seamwhisk::seamwhisk_one_slot),
        Kind::Exact => table_and_budget(rt, case),
        Kind::ReadTable => text_and_room(rt, case),
        Kind::WritePlan => plan_and_room(rt, case),
        Kind::ReadPlan => file_and_rooms(rt, case),
        Kind::Ceiling => ceiling(rt, case),
        Kind::Input => input(rt, case),
        Kind::PlanTexts => texts_and_rooms(rt, case),
    }
}

// A table and its offsets, for a call that judges them.
fn table_and_offsets<A, F>(rt: &impl Print, mut case: Case<'_>, mut answer: A, call: F)
where
    A: AsSlice<u64> + Drop,
    F: Fn(u32, u32, &[u32], &[u32], &mut A) + Drop,
    requires { F.IsAlwaysCallable call }
{
    let period = case.number();
    let size = case.number();
    let mut delays = [0; ROW_ROOM];
    let delays = case.list(&mut delays);
    let mut offsets = [0; ROW_ROOM];
    let offsets = case.list(&mut offsets);
    call(period, size, delays, offsets, &mut answer);
    show::answer(rt, answer.as_slice());
}

// A table and a lent list for its offsets, for a planner.
fn table_and_room<F>(rt: &impl Print, mut case: Case<'_>, call: F)
where
    F: Fn(u32, u32, &[u32], &mut [u32], &mut [u64; 2]) + Drop,
    requires { F.IsAlwaysCallable call }
{
    let period = case.number();
    let size = case.number();
    let mut delays = [0; ROW_ROOM];
    let delays = case.list(&mut delays);
    let mut offsets = [0; ROW_ROOM];
    let offsets = case.lent().fill(&mut offsets);
    let mut answer = [0; 2];
    call(period, size, delays, offsets, &mut answer);
    show::answer(rt, &answer);
    show::list(rt, offsets);
}

// A table, a budget and a lent list for its offsets.
fn table_and_budget(rt: &impl Print, mut case: Case<'_>) {
    let period = case.number();
    let size = case.number();
    let budget = case.number();
    let mut delays = [0; ROW_ROOM];
    let delays = case.list(&mut delays);
    let mut offsets = [0; ROW_ROOM];
    let offsets = case.lent().fill(&mut offsets);
    let mut answer = [0; 3];
    seamwhisk::seamwhisk_exact(period, size, delays, budget, offsets, &mut answer);
    show::answer(rt, &answer);
    show::list(rt, offsets);
}

// A number of rows, as it comes in.
fn ceiling(rt: &impl Print, mut case: Case<'_>) {
    let rows: u64 = case.number();
    show::answer(rt, &[seamwhisk::seamwhisk_ceiling(rows as usize)]);
}

// A text and a lent list for its delays.
fn text_and_room(rt: &impl Print, mut case: Case<'_>) {
    let mut text = [0; BYTE_ROOM];
    let text = case.list(&mut text);
    let mut delays = [0; ROW_ROOM];
    let delays = case.lent().fill(&mut delays);
    let mut answer = [0; 5];
    seamwhisk::seamwhisk_read_table(text, delays, &mut answer);
    show::answer(rt, &answer);
    show::list(rt, delays);
}

// The input of the program `exact`.
fn input(rt: &impl Print, mut case: Case<'_>) {
    let mut given = [0; BYTE_ROOM];
    let given = case.list(&mut given);
    let mut out = [0; console::MOST];
    let count = console::run(given, &mut out);
    show::answer(rt, &[count as u64]);
    show::list(rt, &out[..count]);
}

// A plan and a lent buffer for its file.
fn plan_and_room(rt: &impl Print, mut case: Case<'_>) {
    let period = case.number();
    let size = case.number();
    let mut delays = [0; ROW_ROOM];
    let delays = case.list(&mut delays);
    let mut offsets = [0; ROW_ROOM];
    let offsets = case.list(&mut offsets);
    let mut file = [0; BYTE_ROOM];
    let file = case.lent().fill(&mut file);
    let mut answer = [0; 3];
    seamwhisk::seamwhisk_write_plan(period, size, delays, offsets, file, &mut answer);
    show::answer(rt, &answer);
    show::list(rt, file);
}

// A plan file and two lent lists, for its delays and its offsets.
fn file_and_rooms(rt: &impl Print, mut case: Case<'_>) {
    let mut file = [0; BYTE_ROOM];
    let file = case.list(&mut file);
    let mut delays = [0; ROW_ROOM];
    let delays = case.lent().fill(&mut delays);
    let mut offsets = [0; ROW_ROOM];
    let offsets = case.lent().fill(&mut offsets);
    let mut answer = [0; 5];
    seamwhisk::seamwhisk_read_plan(file, delays, offsets, &mut answer);
    show::answer(rt, &answer);
    show::list(rt, delays);
    show::list(rt, offsets);
}

// A budget, joined texts and two lent lists, for their answers and their offsets, of which what has changed is shown.
fn texts_and_rooms(rt: &impl Print, mut case: Case<'_>) {
    let budget = case.number();
    let mut texts = [0; LARGE_BUFFER];
    let texts = case.parts(&mut texts);
    let lent_answers = case.lent();
    let mut answers = [0; ROW_ROOM];
    let answers = lent_answers.fill(&mut answers);
    let lent_offsets = case.lent();
    let mut offsets = [0; OFFSET_ROOM];
    let offsets = lent_offsets.fill(&mut offsets);
    let mut answer = [0; 3];
    seamwhisk::seamwhisk_plan_texts_flat(texts, budget, answers, offsets, &mut answer);
    show::answer(rt, &answer);
    show::changes(rt, answers, lent_answers);
    show::changes(rt, offsets, lent_offsets);
}
