// The judging of values, in the order that every call on values shares.
ghost use Rattle.std.specs.Prelude.{◌≡◌, position, nat_le};
ghost use Rattle.ground.specs.Judging.{outside, first};
ghost use Rattle.ground.specs.Refusals.{judged};
ghost use Rattle.link.specs.Refusal.{link_faults, row_faults, table_faults, offset_faults, plan_faults, planner_faults};

use crate::Link;
use crate::limits::{MAX_DELAY, MAX_PERIOD, MAX_ROWS};
use ground::{Fault, Refusal};

// x is not one of lo .. hi.
fn is_outside(lo: u32, hi: u32, x: u32) -> bool
    ensures { result ≡ outside lo hi x }
{
    x < lo || hi < x
}

// The least row at or above a limit.
fn first_from(xs: &[u32], limit: u32) -> Option<usize>
    ensures { result ≡ position (λ x. nat_le limit x) xs.now }
{
    xs.iter().position(|x| *x >= limit)
}

// 5, 6.
pub fn link_values(link: Link) -> Result<(), Fault>
    ensures { judged result ≡ first (link_faults link) }
{
    if is_outside(1, MAX_PERIOD, link.period) {
        return Err(Fault {
            refusal: Refusal::BadPeriod,
            place: 0,
        });
    }
    if is_outside(1, link.period, link.size) {
        return Err(Fault {
            refusal: Refusal::BadSize,
            place: 0,
        });
    }
    Ok(())
}

// 8, 7.
fn rows(delays: &[u32]) -> Result<(), Fault>
    ensures { judged result ≡ first (row_faults delays.now) }
{
    let n = delays.len();
    if n == 0 || n > MAX_ROWS {
        return Err(Fault {
            refusal: Refusal::BadRows,
            place: 0,
        });
    }
    if let Some(place) = first_from(delays, MAX_DELAY + 1) {
        return Err(Fault {
            refusal: Refusal::BadDelay,
            place,
        });
    }
    Ok(())
}

// A table: 5, 6, 8, 7.
pub fn table(link: Link, delays: &[u32]) -> Result<(), Fault>
    ensures { judged result ≡ first (table_faults link delays.now) }
{
    link_values(link)?;
    rows(delays)
}

// A table, and a lent list with room for so many offsets: 5, 6, 8, 7, 11.
pub fn planner(link: Link, delays: &[u32], room: usize) -> Result<(), Fault>
    ensures { judged result ≡ first (planner_faults link delays.now room) }
{
    table(link, delays)?;
    if room < delays.len() {
        return Err(Fault {
            refusal: Refusal::BadLength,
            place: 0,
        });
    }
    Ok(())
}

// 11, 17.
fn offsets(link: Link, delays: &[u32], offsets: &[u32]) -> Result<(), Fault>
    ensures { judged result ≡ first (offset_faults link delays.now offsets.now) }
{
    if offsets.len() != delays.len() {
        return Err(Fault {
            refusal: Refusal::BadLength,
            place: 0,
        });
    }
    if let Some(place) = first_from(offsets, link.period) {
        return Err(Fault {
            refusal: Refusal::BadOffset,
            place,
        });
    }
    Ok(())
}

// A table and its offsets: 5, 6, 8, 7, 11, 17.
pub fn plan(link: Link, delays: &[u32], lent: &[u32]) -> Result<(), Fault>
    ensures { judged result ≡ first (plan_faults link delays.now lent.now) }
{
    table(link, delays)?;
    offsets(link, delays, lent)
}
