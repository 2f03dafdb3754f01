// The text's own limit.
pub const MAX_TEXT: usize = 1024;
