// The writer's steps.
ghost use Rattle.std.specs.Prelude.{◌+◌, ◌≤◌, length};
ghost use Rattle.ground.specs.Lent.{Adds};
ghost use Rattle.link.specs.Limits.{max_period, max_rows};
ghost use Rattle.planfile.specs.Format.{header_bytes, rows_bytes, header_room, rows_room, RowsFit};

use crate::groups;
use link::Link;
use link::limits::MAX_ROWS;

// Four bytes for the tag, and at most four for each of the 3 + 2 * 64 numbers.
pub(crate) const ROOM: usize = 4 * (1 + 3 + 2 * MAX_ROWS);

// Writes period, size and the number of rows.
pub(crate) fn put_header(link: Link, rows: usize, file: &mut [u8], at: usize) -> usize
    requires { (at + header_room ≤ length file.old) × (link.period ≤ max_period) × (link.size ≤ max_period) × (rows ≤ max_rows) }
    ensures { Adds file.old at (header_bytes link rows) result file.new }
{
    let at_size = groups::put_number(file, at, link.period);
    let at_rows = groups::put_number(file, at_size, link.size);
    groups::put_number(file, at_rows, rows as u32)
}

// Writes delay and offset of each row.
pub(crate) fn put_rows(delays: &[u32], offsets: &[u32], file: &mut [u8], from: usize) -> usize
    requires rows_fit { RowsFit delays.now offsets.now }
    requires rows_room_in_bounds { from + rows_room ≤ length file.old }
    ensures { Adds file.old from (rows_bytes delays.now offsets.now) result file.new }
{
    let mut at = from;
    for (delay, offset) in delays.iter().zip(offsets) {
        let at_offset = groups::put_number(file, at, *delay);
        at = groups::put_number(file, at_offset, *offset);
    }
    at
}
