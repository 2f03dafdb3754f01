// The checker over a lent list of records: a walk that hands one record after the other to the pair test, and answers what `check`
// answers on the list of their delays and the list of their offsets.
#![tactic(auto)]

ghost use Rattle.std.specs.Prelude.{◌≡◌, position, nat_le, nat_lt};
ghost use Rattle.ground.specs.Judging.{first};
ghost use Rattle.ground.specs.Refusals.{judged};
ghost use Rattle.link.specs.Limits.{max_delay};
ghost use Rattle.link.specs.Range.{InRange};
ghost use Rattle.link.specs.Refusal.{plan_faults};
ghost use Rattle.checker.specs.Answer.{said, found, answer, named};
ghost use Rattle.records.specs.Columns.{delays_of, offsets_of};

use checker::Collision;
use ground::{Fault, Refusal};
use link::limits::{MAX_DELAY, MAX_ROWS};
use link::{Circle, Link, NO_STARTS};

#[repr(C)]
#[derive(Clone, Copy, Debug, PartialEq, Eq)]
pub struct Record {
    pub delay: u32,
    pub offset: u32,
}

// Judges a table and its offsets, given as records, and names the first collision.
pub fn check_records(link: Link, records: &[Record]) -> Result<Option<Collision>, Fault>
    ensures { said result ≡ answer link (delays_of records.now) (offsets_of records.now) }
{
    judge(link, records)?;
    Ok(first_collision(link.circle(), records))
}

// The least row with a delay out of range. This and `beyond` are one chain each: one function for both, and for `link`'s, would take
// the field by a closure, whose clause is longer than they are.
fn overlong(records: &[Record]) -> Option<usize>
    ensures { result ≡ position (λ (r : Record). nat_lt max_delay r.delay) records.now }
{
    records.iter().position(|record| record.delay > MAX_DELAY)
}

// The least row with an offset out of range.
fn beyond(records: &[Record], period: u32) -> Option<usize>
    ensures { result ≡ position (λ (r : Record). nat_le period r.offset) records.now }
{
    records.iter().position(|record| record.offset >= period)
}

// 5, 6, 8, 7, 17: all delays before any offset. 11 cannot arise, for a record has one of each.
fn judge(link: Link, records: &[Record]) -> Result<(), Fault>
    ensures { judged result ≡ first (plan_faults link (delays_of records.now) (offsets_of records.now)) }
{
    link::judge::link_values(link)?;
    let n = records.len();
    if n == 0 || n > MAX_ROWS {
        return Err(Fault {
            refusal: Refusal::BadRows,
            place: 0,
        });
    }
    if let Some(place) = overlong(records) {
        return Err(Fault {
            refusal: Refusal::BadDelay,
            place,
        });
    }
    if let Some(place) = beyond(records, link.period) {
        return Err(Fault {
            refusal: Refusal::BadOffset,
            place,
        });
    }
    Ok(())
}

// The checker's walk, on the records as they are lent: it calls the pair test itself, and copies no list.
// The collision of the least later row; starts are kept, so that each is worked out once.
fn first_collision(circle: Circle, records: &[Record]) -> Option<Collision>
    requires { InRange circle.period circle.span (delays_of records.now) (offsets_of records.now) }
    ensures { found result ≡ named circle.period circle.span (delays_of records.now) (offsets_of records.now) }
{
    let mut starts = NO_STARTS;
    for (later, record) in records.iter().enumerate() {
        let start = circle.start(record.delay, record.offset);
        if let Some(met) = circle.first_met(&starts[..later], start) {
            return Some(Collision {
                earlier: met.row,
                later,
                crossing: met.crossing,
            });
        }
        starts[later] = start;
    }
    None
}
