// The limits of joined texts.
pub const MAX_TEXTS: usize = 32;

pub const MAX_JOINED: usize = 32768;
