// The stretch report: the free slots of each crossing of a clear plan, and the stretches that they form.
#![tactic(auto)]

ghost use Rattle.std.specs.Prelude.{◌≡◌, ℕ, ◌<◌, length};
ghost use Rattle.link.specs.Range.{InRange};
ghost use Rattle.link.specs.Rows.{Clear};
ghost use Rattle.report.specs.Answer.{said, answer, telling, told};
ghost use Rattle.report.specs.Free.{stretch_of};
ghost use Rattle.report.specs.Steps.{Placed, at, free_at, NextStart};

use ground::Fault;
use link::limits::MAX_ROWS;
use link::{Circle, Link};

// The numbers of one crossing.
#[derive(Clone, Copy, Debug, PartialEq, Eq)]
pub struct Stretch {
    pub free: u32,
    pub stretches: u32,
    pub widest: u32,
}

// The numbers of both crossings.
#[derive(Clone, Copy, Debug, PartialEq, Eq)]
pub struct Reported {
    pub first: Stretch,
    pub second: Stretch,
}

// Judges a plan that is to be clear, and reports the free slots of both crossings.
pub fn report(link: Link, delays: &[u32], offsets: &[u32]) -> Result<Reported, Fault>
    ensures { said result ≡ answer link delays.now offsets.now }
{
    checker::judge_clear(link, delays, offsets)?;
    Ok(both(link.circle(), delays, offsets))
}

// Both crossings: the offsets are the first one's starts, and the second one's are worked out once.
fn both(circle: Circle, delays: &[u32], offsets: &[u32]) -> Reported
    requires { (0 < circle.span) × InRange circle.period circle.span delays.now offsets.now
        × Clear circle.period circle.span delays.now offsets.now }
    ensures { telling result.first result.second ≡ told circle.period circle.span delays.now offsets.now }
{
    let mut seconds = [0u32; MAX_ROWS];
    for (row, delay) in delays.iter().enumerate() {
        seconds[row] = circle.second_start(*delay, offsets[row]);
    }
    let first = crossing(circle, offsets);
    let second = crossing(circle, &seconds[..delays.len()]);
    Reported { first, second }
}

// The numbers of a crossing with these starts: each message takes its slots, and behind it all is free up to the next start.
fn crossing(circle: Circle, starts: &[u32]) -> Stretch
    requires { Placed circle.period circle.span starts.now }
    ensures { result ≡ stretch_of (free_at circle.period circle.span starts.now) circle.period }
{
    let mut free = circle.period;
    let mut stretches = 0;
    let mut widest: u32 = 0;
    for start in starts {
        let end = circle.turn(*start, circle.span);
        let run = next_start(circle, starts, end);
        free -= circle.span;
        if run > 0 {
            stretches += 1;
            widest = widest.max(run);
        }
    }
    Stretch {
        free,
        stretches,
        widest,
    }
}

// How many slots on from x the next message starts, round the period. A start turned back by x is so many slots on from x.
fn next_start(circle: Circle, starts: &[u32], x: u32) -> u32
    requires { (x < circle.period) × (0 < length starts.now) × ((i : ℕ) → i < length starts.now → at starts.now i < circle.period) }
    ensures { NextStart circle.period starts.now (length starts.now) x result }
{
    let back = circle.period - x;
    let mut next = circle.period;
    for other in starts {
        next = next.min(circle.turn(*other, back));
    }
    next
}
