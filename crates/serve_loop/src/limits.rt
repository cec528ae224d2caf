//! How many bytes come at once.

/// How many bytes of a piece there is room for. A longer piece comes as several.
pub const PIECE_ROOM: usize = 65_536;
