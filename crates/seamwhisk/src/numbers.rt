// Each answer as its numbers: number and place of a refusal first, and 0 for what does not apply.
ghost use Rattle.std.specs.Prelude.{◌≡◌, ◌≤◌, ◌-◌, [], ◌∷◌, replicate};
ghost use Rattle.ground.specs.Refusals.{number_of};
ghost use Rattle.checker.specs.Answer.{said as said_checked};
ghost use Rattle.quick.specs.Answer.{said as said_planned};
ghost use Rattle.search.specs.Answer.{said as said_searched};
ghost use Rattle.text.specs.Answer.{said as said_read};
ghost use Rattle.joined.specs.Answer.{said as said_run};
ghost use Rattle.planfile.specs.Answer.{written_said, read_said};
ghost use Rattle.report.specs.Answer.{said as said_reported};
ghost use Rattle.seamwhisk.specs.Numbers.{checked_as, planned_as, searched_as, read_as, run_as, written_as, file_as, reported_as};

use checker::Collision;
use ground::{Fault, Refusal};
use joined::Stopped;
use link::Link;
use planfile::Plan;
use report::Reported;
use search::Answer;
use text::Table;

// What a refusal says, whatever else the answer would have.
fn refused<const N: usize>(fault: Fault) -> [u64; N]
    requires { 2 ≤ N }
    ensures { result ≡ number_of fault.refusal ∷ fault.place ∷ replicate (N - 2) 0 }
{
    let mut numbers = [0; N];
    numbers[0] = u64::from(fault.refusal.number());
    numbers[1] = fault.place as u64;
    numbers
}

pub(crate) fn checked(answer: Result<Option<Collision>, Fault>) -> [u64; 5]
    ensures { result ≡ checked_as (said_checked answer) }
{
    match answer {
        Ok(None) => [0; 5],
        Ok(Some(collision)) => [
            0,
            0,
            collision.earlier as u64,
            collision.later as u64,
            u64::from(collision.crossing.number()),
        ],
        Err(fault) => refused(fault),
    }
}

pub(crate) fn planned(answer: Result<(), Fault>) -> [u64; 2]
    ensures { result ≡ planned_as (said_planned answer) }
{
    match answer {
        Ok(()) => [0; 2],
        Err(fault) => refused(fault),
    }
}

pub(crate) fn searched(answer: Result<Answer, Fault>) -> [u64; 3]
    ensures { result ≡ searched_as (said_searched answer) }
{
    match answer {
        Ok(Answer::Plan { tests }) => [0, 0, tests],
        Ok(Answer::Nothing { tests }) => [u64::from(Refusal::NoBuild.number()), 0, tests],
        Ok(Answer::Spent { tests }) => [u64::from(Refusal::BudgetSpent.number()), 0, tests],
        Err(fault) => refused(fault),
    }
}

// A link and the number of its rows.
fn linked(link: Link, rows: usize) -> [u64; 5]
    ensures { result ≡ 0 ∷ 0 ∷ link.period ∷ link.size ∷ rows ∷ [] }
{
    [
        0,
        0,
        u64::from(link.period),
        u64::from(link.size),
        rows as u64,
    ]
}

pub(crate) fn read(answer: Result<Table, Fault>) -> [u64; 5]
    ensures { result ≡ read_as (said_read answer) }
{
    match answer {
        Ok(table) => linked(table.link, table.rows),
        Err(fault) => refused(fault),
    }
}

pub(crate) fn run(answer: Result<usize, Stopped>) -> [u64; 3]
    ensures { result ≡ run_as (said_run answer) }
{
    match answer {
        Ok(texts) => [0, 0, texts as u64],
        Err(stopped) => [
            u64::from(stopped.fault.refusal.number()),
            stopped.fault.place as u64,
            stopped.texts as u64,
        ],
    }
}

pub(crate) fn written(answer: Result<usize, Fault>) -> [u64; 3]
    ensures { result ≡ written_as (written_said answer) }
{
    match answer {
        Ok(bytes) => [0, 0, bytes as u64],
        Err(fault) => refused(fault),
    }
}

pub(crate) fn file(answer: Result<Plan, Fault>) -> [u64; 5]
    ensures { result ≡ file_as (read_said answer) }
{
    match answer {
        Ok(plan) => linked(plan.link, plan.rows),
        Err(fault) => refused(fault),
    }
}

pub(crate) fn reported(answer: Result<Reported, Fault>) -> [u64; 8]
    ensures { result ≡ reported_as (said_reported answer) }
{
    match answer {
        Ok(Reported { first, second }) => [
            0,
            0,
            u64::from(first.free),
            u64::from(first.stretches),
            u64::from(first.widest),
            u64::from(second.free),
            u64::from(second.stretches),
            u64::from(second.widest),
        ],
        Err(fault) => refused(fault),
    }
}
