// Document 01's ranges.
pub const MAX_PERIOD: u32 = 1000000;

pub const MAX_DELAY: u32 = 16777215;

pub const MAX_ROWS: usize = 64;
