// First Fit and Meta-Offset: one planner over the offsets 0, step, .., (count-1) step.
#![tactic(auto)]

ghost use Rattle.std.specs.Prelude.{◌≡◌, ◌≤◌, length};
ghost use Rattle.link.specs.Limits.{max_rows};
ghost use Rattle.link.specs.Starts.{firsts, seconds};
ghost use Rattle.ground.specs.Protocol.{gives};
ghost use Rattle.quick.specs.Plan.{all_placed};
ghost use Rattle.quick.specs.Answer.{said, outcome, first_fit, meta_offset};
ghost use Rattle.quick.specs.Ways.{Ways, FirstOpen, open_to};

use ground::{Fault, Refusal};
use link::{Circle, Link, NO_STARTS, Start};

// Each row gets the least free offset.
pub fn first_fit(link: Link, delays: &[u32], offsets: &mut [u32]) -> Result<(), Fault>
    ensures { gives (said result) offsets.new ≡ first_fit link delays.now offsets.old }
{
    link::judge::planner(link, delays, offsets.len())?;
    plan(link.circle(), delays, offsets, 1, link.period)
}

// Each row gets the least free multiple of the size.
pub fn meta_offset(link: Link, delays: &[u32], offsets: &mut [u32]) -> Result<(), Fault>
    ensures { gives (said result) offsets.new ≡ meta_offset link delays.now offsets.old }
{
    link::judge::planner(link, delays, offsets.len())?;
    let circle = link.circle();
    plan(
        circle,
        delays,
        offsets,
        circle.span,
        circle.period / circle.span,
    )
}

// Places the rows in table order; the lent list is written once all have their offsets.
fn plan(
    circle: Circle,
    delays: &[u32],
    offsets: &mut [u32],
    step: u32,
    count: u32,
) -> Result<(), Fault>
    requires delays_len_bound { (length delays.now ≤ max_rows) × (length delays.now ≤ length offsets.old) }
    requires ways { Ways circle.period circle.span step count }
    ensures { gives (said result) offsets.new
        ≡ outcome (all_placed circle.period circle.span delays.now step count) offsets.old }
{
    let mut starts = NO_STARTS;
    for (j, delay) in delays.iter().enumerate() {
        let Some(c) = first_free(circle, *delay, &starts[..j], step, 0, count) else {
            return Err(Fault {
                refusal: Refusal::NoOffset,
                place: j,
            });
        };
        starts[j] = circle.start(*delay, c * step);
    }
    link::copy_offsets(&starts[..delays.len()], offsets);
    Ok(())
}

// The least candidate, of those from `from` on and below the count, at which a row with this delay meets none of the rows so far. Not
// inlined: its copies in the one-slot planner took up to half as long again, by where they came to lie.
#[inline(never)]
pub fn first_free(
    circle: Circle,
    delay: u32,
    starts: &[Start],
    step: u32,
    from: u32,
    count: u32,
) -> Option<u32>
    requires ways { Ways circle.period circle.span step count }
    requires from_le_count { from ≤ count }
    ensures { FirstOpen (open_to circle.period circle.span delay (firsts starts.now) (seconds starts.now) step)
        from count result }
{
    let mut new = circle.start(delay, from * step);
    for c in from..count {
        if circle.first_met(starts, new).is_none() {
            return Some(c);
        }
        new = Start {
            first: new.first + step,
            second: circle.turn(new.second, step),
        };
    }
    None
}
