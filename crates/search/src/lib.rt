// The exact planner: the offsets of the least whole build, or that there is none.
#![tactic(auto)]

pub mod limits;

ghost use Rattle.std.specs.Prelude.{◌≡◌, true, ℕ, ◌<◌, ◌≤◌, ◌*◌, ◌%◌, length, get_or};
ghost use Rattle.ground.specs.Judging.{first};
ghost use Rattle.ground.specs.Refusals.{judged};
ghost use Rattle.ground.specs.Protocol.{gives};
ghost use Rattle.link.specs.Limits.{max_rows};
ghost use Rattle.link.specs.Range.{GoodTable};
ghost use Rattle.link.specs.Starts.{firsts, seconds};
ghost use Rattle.search.specs.Refusal.{exact_faults};
ghost use Rattle.search.specs.Steps.{puts, is_step};
ghost use Rattle.search.specs.Ceilings.{ceiling_up_to};
ghost use Rattle.search.specs.Answer.{said, tells, searched, exactly};
ghost use Rattle.search.specs.Numbering.{step_at, Next};
ghost use Rattle.search.specs.Search.{Table, blocked, unblocked};

use crate::limits::MAX_EXACT_ROWS;
use ground::{Fault, Refusal};
use link::limits::MAX_ROWS;
use link::{Circle, Link, Start};

// A plan, no whole build, or a budget that was not enough, each with its tests.
#[derive(Clone, Copy, Debug, PartialEq, Eq)]
pub enum Answer {
    Plan { tests: u64 },
    Nothing { tests: u64 },
    Spent { tests: u64 },
}

// The offsets of the least whole build. 5, 6, 8, 7, 11, 12, then 15, 14 or a plan.
pub fn exact(link: Link, delays: &[u32], budget: u64, offsets: &mut [u32]) -> Result<Answer, Fault>
    ensures { gives (said result) offsets.new ≡ exactly link delays.now budget offsets.old }
{
    judge(link, delays, offsets.len())?;
    Ok(plan(link, delays, budget, offsets))
}

// A planner's table and lent list, and few enough rows: 5, 6, 8, 7, 11, 12.
fn judge(link: Link, delays: &[u32], room: usize) -> Result<(), Fault>
    ensures { judged result ≡ first (exact_faults link delays.now room) }
{
    link::judge::planner(link, delays, room)?;
    if delays.len() > MAX_EXACT_ROWS {
        return Err(Fault {
            refusal: Refusal::TooManyRows,
            place: 0,
        });
    }
    Ok(())
}

const CEILINGS: [u64; 9] = [0, 0, 2, 20, 342, 10472, 509930, 36086652, 3493657790];

// A number that the tests of so many rows never pass; 0 where the planner takes no such table.
pub fn ceiling(rows: usize) -> u64
    ensures { result ≡ ceiling_up_to rows }
{
    CEILINGS.get(rows).copied().unwrap_or(0)
}

// Where each row starts. A row that is not placed has a first start at or above the period.
type Board = [Start; MAX_ROWS];

// The rows of a search: their circle, their delays within its period, and how many they are.
#[derive(Drop)]
struct Rows {
    circle: Circle,
    // an array with the count beside it: with a slice of it the search is slower by a third
    delays: [u32; MAX_ROWS],
    count: usize,
    ghost searchable: { Table circle.period circle.span delays count },
}

// How a search ended, with the tests that are left: three ways, which no `Option` or `Result` has.
#[derive(Drop)]
enum Hunt {
    Found(u64),
    Nothing(u64),
    Spent,
}

// The numbers of the steps of one row: two for each other row.
const ROW: usize = 2 * MAX_ROWS;

// The answer for values in range: the search starts with row 0 at offset 0 and no other row placed.
fn plan(link: Link, delays: &[u32], budget: u64, offsets: &mut [u32]) -> Answer
    requires { GoodTable link delays.now × (length delays.now ≤ length offsets.old) }
    ensures { gives (tells result) offsets.new ≡ searched link delays.now budget offsets.old }
{
    let circle = link.circle();
    let rows = Rows {
        circle,
        delays: reduced(circle.period, delays),
        count: delays.len(),
    };
    let mut board = [Start {
        first: circle.period,
        second: 0,
    }; MAX_ROWS];
    board[0] = Start {
        first: 0,
        second: rows.delays[0],
    };
    match rows.descend(&mut board, delays.len() - 1, budget) {
        Hunt::Found(left) => {
            link::copy_offsets(&board[..delays.len()], offsets);
            Answer::Plan {
                tests: budget - left,
            }
        }
        Hunt::Nothing(left) => Answer::Nothing {
            tests: budget - left,
        },
        Hunt::Spent => Answer::Spent { tests: budget },
    }
}

// The delays within the period.
fn reduced(period: u32, delays: &[u32]) -> [u32; MAX_ROWS]
    requires { (0 < period) × (length delays.now ≤ max_rows) }
    ensures { (i : ℕ) → get_or result i 0 ≡ get_or delays.now i 0 % period }
{
    let mut turns = [0; MAX_ROWS];
    for (row, delay) in delays.iter().enumerate() {
        turns[row] = *delay % period;
    }
    turns
}

// Whether a row with this start is placed and meets a new one.
fn meets(circle: Circle, placed: Start, new: Start) -> bool
    ensures { result ≡ blocked circle.period circle.span new.first new.second placed.first placed.second }
{
    placed.first < circle.period
        && (!circle.apart(placed.first, new.first) || !circle.apart(placed.second, new.second))
}

impl Rows {
    ghost use Rattle.search.specs.Searching.{Stands, Tried, Descended};

    // Whether a row with this start meets no placed row.
    fn is_free(&self, board: &Board, new: Start) -> bool
        ensures { result ≡ unblocked self.now.circle.period self.now.circle.span (firsts board.now) (seconds board.now)
            self.now.count new.first new.second }
    {
        for placed in &board[..self.count] {
            if meets(self.circle, *placed, new) {
                return false;
            }
        }
        true
    }

    // The number of the first step from a number on. The walk jumps, so it is no `for`.
    fn next_step(&self, board: &Board, from: usize) -> usize
        requires { from ≤ self.now.count * (2 * max_rows) }
        ensures { Next self.now.circle.period self.now.count (firsts board.now) from result }
    {
        let mut k = from;
        while k < self.count * ROW {
            let row = k / ROW;
            let beside = k / 2 % MAX_ROWS;
            // one test with `||` would do for the first two, but makes the search slower by a third
            if board[row].first < self.circle.period {
                k = (row + 1) * ROW;
            } else if self.count <= beside {
                k = (row + 1) * ROW;
            } else if board[beside].first < self.circle.period {
                return k;
            } else {
                k += 2 - k % 2;
            }
        }
        k
    }

    // Where a step puts its row.
    fn offset(&self, board: &Board, k: usize) -> u32
        requires { Stands self.now board.now
            × (is_step self.now.circle.period self.now.count (firsts board.now) (step_at k) ≡ true) }
        ensures { (result ≡ puts self.now.circle.period self.now.circle.span self.now.delays (firsts board.now) (step_at k))
            × (result < self.now.circle.period) }
    {
        let beside = board[k / 2 % MAX_ROWS];
        if k % 2 == 0 {
            return self.circle.turn(beside.first, self.circle.span);
        }
        let second = self.circle.turn(beside.second, self.circle.span);
        self.circle
            .turn(second, self.circle.period - self.delays[k / ROW])
    }

    // Tries the step k, which is one test: where it is good, the rows that are then left are placed.
    #[cycle(descend_try_step)]
    fn try_step(&self, board: &mut Board, unplaced: usize, k: usize, left: u64) -> Hunt
        requires { Stands self.now board.old
            × (k < self.now.count * (2 * max_rows))
            × (is_step self.now.circle.period self.now.count (firsts board.old) (step_at k) ≡ true) × (0 < left) }
        ensures tried { Tried self.now unplaced k left board.old result board.new }
        ensures starts { Stands self.now board.new }
    {
        let rest = left - 1;
        let row = k / ROW;
        let first = self.offset(board, k);
        let new = Start {
            first,
            second: self.circle.turn(first, self.delays[row]),
        };
        if !self.is_free(board, new) {
            return Hunt::Nothing(rest);
        }
        let old = board[row];
        board[row] = new;
        let hunt = self.descend(board, unplaced, rest);
        if !matches!(hunt, Hunt::Found(_)) {
            board[row] = old;
        }
        hunt
    }

    // Places the rows that are left, `unplaced` of them.
    #[cycle(descend_try_step)]
    fn descend(&self, board: &mut Board, unplaced: usize, budget: u64) -> Hunt
        requires { Stands self.now board.old }
        ensures descended { Descended self.now unplaced budget board.old result board.new }
        ensures starts { Stands self.now board.new }
    {
        if unplaced == 0 {
            return Hunt::Found(budget);
        }
        let mut left = budget;
        let mut k = self.next_step(board, 0);
        // The steps are found one by one on a board that changes, so this is no `for`.
        while k < self.count * ROW {
            if left == 0 {
                return Hunt::Spent;
            }
            match self.try_step(board, unplaced - 1, k, left) {
                Hunt::Nothing(rest) => {
                    left = rest;
                    k = self.next_step(board, k + 1);
                }
                hunt => return hunt,
            }
        }
        Hunt::Nothing(left)
    }
}
