// How large names, texts, rows and catalogues may be.

/// The most bytes of a name.
pub const MAX_NAME: usize = 32;

/// The most bytes of a text.
pub const MAX_TEXT: usize = 64;

/// The most columns of a table, so the most values of a row.
pub const MAX_COLUMNS: usize = 8;

/// The most parameters of a procedure, so the most arguments of a call.
pub const MAX_PARAMS: usize = 16;

/// The most tables of a catalogue.
pub const MAX_TABLES: usize = 64;

/// The most procedures of a catalogue.
pub const MAX_PROCS: usize = 64;
