// Messages of one slot, with a move: where a row finds no free offset, one row already placed may give way.
#![tactic(auto)]

ghost use Rattle.std.specs.Prelude.{◌≡◌, ◌≤◌, ◌<◌, [], ◌∷◌, ◌++◌, length};
ghost use Rattle.ground.specs.Judging.{first};
ghost use Rattle.ground.specs.Protocol.{gives};
ghost use Rattle.ground.specs.Refusals.{judged};
ghost use Rattle.link.specs.Limits.{max_rows};
ghost use Rattle.link.specs.Starts.{firsts, seconds};
ghost use Rattle.quick.specs.Answer.{said, outcome};
ghost use Rattle.quick.specs.Ways.{Ways, FirstOpen, open_to};
ghost use Rattle.oneslot.specs.Answer.{faults, one_slot};
ghost use Rattle.oneslot.specs.Moves.{as_move, least_move, move_of};
ghost use Rattle.oneslot.specs.Plan.{all_settled};
ghost use Rattle.oneslot.specs.Others.{without, fits, can_move};

use ground::{Fault, Refusal};
use link::{Circle, Link, NO_STARTS, Start};

// An earlier row that gives way, its new offset, and the new row's.
#[derive(Clone, Copy, Debug, PartialEq, Eq)]
pub struct Move {
    pub row: usize,
    pub to: u32,
    pub offset: u32,
}

// A circle in range, each of whose slots is tried.
#[derive(Clone, Copy)]
struct Ring {
    circle: Circle,
    ghost ways: { Ways circle.period circle.span 1 circle.period },
}

// Each row gets the least free offset, or the one that the least single move leaves it.
pub fn one_slot(link: Link, delays: &[u32], offsets: &mut [u32]) -> Result<(), Fault>
    ensures { gives (said result) offsets.new ≡ one_slot link delays.now offsets.old }
{
    judge(link, delays, offsets.len())?;
    let ring = Ring {
        circle: link.circle(),
    };
    ring.plan(delays, offsets)
}

// What every planner judges, then the size.
fn judge(link: Link, delays: &[u32], room: usize) -> Result<(), Fault>
    ensures { judged result ≡ first (faults link delays.now room) }
{
    link::judge::planner(link, delays, room)?;
    if link.size != 1 {
        return Err(Fault {
            refusal: Refusal::NotOneSlot,
            place: 0,
        });
    }
    Ok(())
}

impl Ring {
    // Places the rows in table order; the lent list is written once all have their offsets.
    fn plan(self, delays: &[u32], offsets: &mut [u32]) -> Result<(), Fault>
        requires { (length delays.now ≤ max_rows) × (length delays.now ≤ length offsets.old) }
        ensures { gives (said result) offsets.new
            ≡ outcome (all_settled self.circle.period self.circle.span delays.now) offsets.old }
    {
        let mut starts = NO_STARTS;
        for (j, delay) in delays.iter().enumerate() {
            if let Some(free) = self.first_free(*delay, &starts[..j], 0) {
                starts[j] = self.circle.start(*delay, free);
                continue;
            }
            let Some(found) = self.find_move(&delays[..j], *delay, &starts[..j]) else {
                return Err(Fault {
                    refusal: Refusal::NoOffset,
                    place: j,
                });
            };
            starts[found.row] = self.circle.start(delays[found.row], found.to);
            starts[j] = self.circle.start(*delay, found.offset);
        }
        link::copy_offsets(&starts[..delays.len()], offsets);
        Ok(())
    }

    // The least offset from `from` on at which a row with this delay meets none of the rows with these starts.
    fn first_free(self, delay: u32, starts: &[Start], from: u32) -> Option<u32>
        requires { from ≤ self.circle.period }
        ensures { FirstOpen (open_to self.circle.period self.circle.span delay (firsts starts.now) (seconds starts.now) 1)
            from self.circle.period result }
    {
        quick::first_free(self.circle, delay, starts, 1, from, self.circle.period)
    }

    // The least row, of those with these starts, that can give way to a new row with this delay, and where the two go.
    fn find_move(self, delays: &[u32], delay: u32, starts: &[Start]) -> Option<Move>
        requires { (length starts.now ≡ length delays.now) × (length starts.now ≤ max_rows) }
        ensures { as_move result ≡ least_move self.circle.period
            (can_move self.circle.period self.circle.span delays.now delay (firsts starts.now) (seconds starts.now))
            (length starts.now) }
    {
        let mut rows = delays.iter().enumerate();
        rows.find_map(|(row, moving)| self.give_way(row, *moving, delay, starts))
    }

    // The same for this one row, whose delay is `moving`.
    fn give_way(self, row: usize, moving: u32, delay: u32, starts: &[Start]) -> Option<Move>
        requires { (row < length starts.now) × (length starts.now ≤ max_rows) }
        ensures { as_move result ≡ move_of self.circle.period
            (fits self.circle.period self.circle.span moving delay (without row (firsts starts.now)) (without row (seconds starts.now)))
            row }
    {
        let mut others = NO_STARTS;
        ground::copy_out(starts, &mut others);
        // the last row stands in its place
        let last = starts.len() - 1;
        others[row] = starts[last];
        self.make_room(row, moving, delay, &others[..last])
    }

    // The least offset of a row that is moved, then the least of a new row, so that both are clear of the others and of each other.
    fn make_room(self, row: usize, moving: u32, delay: u32, starts: &[Start]) -> Option<Move>
        requires { length starts.now < max_rows }
        ensures { as_move result ≡ move_of self.circle.period
            (fits self.circle.period self.circle.span moving delay (firsts starts.now) (seconds starts.now)) row }
    {
        // with no room for the new row even so, no offset of the moved one helps
        let least = self.first_free(delay, starts, 0)?;
        // an offset fails only if it is in the way of every one left to the new row, so few are tried, each hunt from behind the last
        let mut from = 0;
        while let Some(to) = self.first_free(moving, starts, from) {
            let moved = self.circle.start(moving, to);
            if let Some(offset) = self.beside(delay, starts, moved, least) {
                return Some(Move { row, to, offset });
            }
            from = to + 1;
        }
        None
    }

    // The least offset from `from` on for a row with this delay, beside rows with these starts and the row that is moved.
    fn beside(self, delay: u32, starts: &[Start], moved: Start, from: u32) -> Option<u32>
        requires { (from ≤ self.circle.period) × (length starts.now < max_rows) }
        ensures { FirstOpen (open_to self.circle.period self.circle.span delay
            (firsts (starts.now ++ (moved ∷ []))) (seconds (starts.now ++ (moved ∷ []))) 1) from self.circle.period result }
    {
        let mut others = NO_STARTS;
        ground::copy_out(starts, &mut others);
        others[starts.len()] = moved;
        self.first_free(delay, &others[..=starts.len()], from)
    }
}
