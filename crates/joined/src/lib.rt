// Texts joined end to end: each is read and planned by itself, in order, up to the first that has a fault.
#![tactic(auto)]

pub mod limits;

ghost use Rattle.std.specs.Prelude.{◌≡◌, ◌≤◌, ◌*◌, ltb, length};
ghost use Rattle.ground.specs.Judging.{first, Fault as AtFault};
ghost use Rattle.ground.specs.Protocol.{gives};
ghost use Rattle.ground.specs.Refusals.{number_of, fault_of, judged};
ghost use Rattle.link.specs.Limits.{max_rows};
ghost use Rattle.text.specs.Limits.{max_text};
ghost use Rattle.search.specs.Answer.{said as said_searched};
ghost use Rattle.joined.specs.Limits.{max_texts, answer_size};
ghost use Rattle.joined.specs.Texts.{split_cut};
ghost use Rattle.joined.specs.Answer.{said, lists, answer_as, call_faults, running, planning};
ghost use Rattle.joined.specs.Steps.{step_said, step_gives};

use crate::limits::{MAX_JOINED, MAX_TEXTS};
use ground::{Fault, Refusal};
use link::limits::MAX_ROWS;
use search::Answer;
use text::limits::MAX_TEXT;

// What stopped a run, and how many texts were answered before: the text at fault is the one behind them.
#[derive(Clone, Copy, Debug, PartialEq, Eq)]
pub struct Stopped {
    pub texts: usize,
    pub fault: Fault,
}

// The numbers of one answer.
const ANSWER: usize = 4;

// Answers each text of the input as the exact planner does, with the whole budget: 23, 11, then text after text. Text t has the four
// numbers from 4t on in `answers` (number, place, tests, rows), and its plan from 64t on in `offsets`.
pub fn plan_texts(
    texts: &[u8],
    budget: u64,
    answers: &mut [u64],
    offsets: &mut [u32],
) -> Result<usize, Stopped>
    ensures { gives (said result) (lists answers.new offsets.new)
        ≡ planning texts.now budget (lists answers.old offsets.old) }
{
    judge(texts.len(), answers.len(), offsets.len()).map_err(|fault| Stopped { texts: 0, fault })?;
    plan_each(texts, budget, answers, offsets)
}

// The input and the two lists: 23, 11.
fn judge(bytes: usize, numbers: usize, offsets: usize) -> Result<(), Fault>
    ensures { judged result ≡ first (call_faults bytes numbers offsets) }
{
    if bytes > MAX_JOINED {
        return Err(Fault {
            refusal: Refusal::LongInput,
            place: 0,
        });
    }
    if numbers < ANSWER * MAX_TEXTS || offsets < MAX_ROWS * MAX_TEXTS {
        return Err(Fault {
            refusal: Refusal::BadLength,
            place: 0,
        });
    }
    Ok(())
}

// Text after text, up to the end of the input, a fault, or a thirty-third text.
fn plan_each(
    texts: &[u8],
    budget: u64,
    answers: &mut [u64],
    offsets: &mut [u32],
) -> Result<usize, Stopped>
    requires { (answer_size * max_texts ≤ length answers.old) × (max_rows * max_texts ≤ length offsets.old) }
    ensures { gives (said result) (lists answers.new offsets.new)
        ≡ running texts.now budget (lists answers.old offsets.old) }
{
    let mut at: usize = 0;
    for t in 0..MAX_TEXTS {
        if at >= texts.len() {
            return Ok(t);
        }
        let numbers = &mut answers[ANSWER * t..];
        let plan = &mut offsets[MAX_ROWS * t..];
        at = plan_text(texts, at, budget, numbers, plan).map_err(|fault| Stopped {
            texts: t,
            fault,
        })?;
    }
    if at < texts.len() {
        return Err(Stopped {
            texts: MAX_TEXTS,
            fault: Fault {
                refusal: Refusal::TooManyTexts,
                place: at,
            },
        });
    }
    Ok(MAX_TEXTS)
}

// The text that begins at `at`: its fault; or its answer, in front of the lists, and where the next one begins.
fn plan_text(
    texts: &[u8],
    at: usize,
    budget: u64,
    answers: &mut [u64],
    offsets: &mut [u32],
) -> Result<usize, Fault>
    requires { (at ≤ length texts.now) × (answer_size ≤ length answers.old) × (max_rows ≤ length offsets.old) }
    ensures { gives (step_said result) (lists answers.new offsets.new)
        ≡ step_gives texts.now at budget (lists answers.old offsets.old) }
{
    let left = texts.len() - at;
    // a text is read from its first 1,024 bytes
    let end = at + left.min(MAX_TEXT);
    let mut delays = [0u32; MAX_ROWS];
    let text = text::read_text(&texts[at..end], &mut delays).map_err(|fault| split(left, fault))?;
    let answer = search::exact(text.link, &delays[..text.rows], budget, offsets);
    ground::copy_out(&numbers(answer, text.rows), answers);
    Ok(at + text.end)
}

// A text's fault, with so many bytes from its first on: a line that is not ended is 1 where they go on past 1,024.
fn split(bytes: usize, fault: Fault) -> Fault
    ensures { fault_of result ≡ split_cut AtFault (ltb max_text bytes) (number_of fault.refusal) fault.place }
{
    if bytes > MAX_TEXT && fault.refusal == Refusal::CutLine {
        return Fault {
            refusal: Refusal::LongText,
            place: 0,
        };
    }
    fault
}

// The four numbers of an answer: number, place, tests, rows.
fn numbers(answer: Result<Answer, Fault>, rows: usize) -> [u64; ANSWER]
    ensures { result ≡ answer_as (said_searched answer) rows }
{
    let rows = rows as u64;
    match answer {
        Ok(Answer::Plan { tests }) => [0, 0, tests, rows],
        Ok(Answer::Nothing { tests }) => [u64::from(Refusal::NoBuild.number()), 0, tests, rows],
        Ok(Answer::Spent { tests }) => [u64::from(Refusal::BudgetSpent.number()), 0, tests, rows],
        Err(fault) => [
            u64::from(fault.refusal.number()),
            fault.place as u64,
            0,
            rows,
        ],
    }
}
