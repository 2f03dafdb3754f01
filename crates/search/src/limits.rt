// The exact planner's row limit.
pub const MAX_EXACT_ROWS: usize = 8;
