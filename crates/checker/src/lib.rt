// The checker of plans: clear exactly when no two messages meet on either crossing.
#![tactic(auto)]

ghost use Rattle.std.specs.Prelude.{◌≡◌};
ghost use Rattle.ground.specs.Judging.{first};
ghost use Rattle.ground.specs.Refusals.{judged};
ghost use Rattle.link.specs.Range.{InRange};
ghost use Rattle.checker.specs.Answer.{said, found, answer, named};
ghost use Rattle.checker.specs.Judging.{clear_faults};

use ground::{Fault, Refusal};
use link::{Circle, Crossing, Link, NO_STARTS};

// Two rows that meet, and the crossing.
#[derive(Clone, Copy, Debug, PartialEq, Eq)]
pub struct Collision {
    pub earlier: usize,
    pub later: usize,
    pub crossing: Crossing,
}

// Judges a table and its offsets, and names the first collision.
pub fn check(link: Link, delays: &[u32], offsets: &[u32]) -> Result<Option<Collision>, Fault>
    ensures { said result ≡ answer link delays.now offsets.now }
{
    link::judge::plan(link, delays, offsets)?;
    Ok(first_collision(link.circle(), delays, offsets))
}

// A plan that is to be clear: what `check` refuses, and 18 at the later row of the collision that it names.
pub fn judge_clear(link: Link, delays: &[u32], offsets: &[u32]) -> Result<(), Fault>
    ensures { judged result ≡ first (clear_faults link delays.now offsets.now) }
{
    match check(link, delays, offsets)? {
        None => Ok(()),
        Some(collision) => Err(Fault {
            refusal: Refusal::NotClear,
            place: collision.later,
        }),
    }
}

// The collision of the least later row; starts are kept, so that each is worked out once.
fn first_collision(circle: Circle, delays: &[u32], offsets: &[u32]) -> Option<Collision>
    requires { InRange circle.period circle.span delays.now offsets.now }
    ensures { found result ≡ named circle.period circle.span delays.now offsets.now }
{
    let mut starts = NO_STARTS;
    for (later, delay) in delays.iter().enumerate() {
        let start = circle.start(*delay, offsets[later]);
        if let Some(met) = circle.first_met(&starts[..later], start) {
            return Some(Collision {
                earlier: met.row,
                later,
                crossing: met.crossing,
            });
        }
        starts[later] = start;
    }
    None
}
