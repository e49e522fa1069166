// Where the parts of a rule file start and how long they are, by the names of `meaning/specs/Parts`.
pub const HEAD_SIZE: usize = 8;

pub const CLASSES_ENTRY: usize = 8;

pub const STARTING_ENTRY: usize = 12;

pub const FINAL_ENTRY: usize = 16;

pub const ROWS_ENTRY: usize = 20;

pub const WORDS_ENTRY: usize = 24;

// An entry's length stands behind its start.
pub const ROWS_LENGTH_AT: usize = 22;

pub const WORDS_LENGTH_AT: usize = 26;

pub const CLASS_COUNT: usize = 256;

pub const SET_SIZE: usize = 8;

pub const ROW_SIZE: usize = 8;

pub const CLASSES_START: usize = 28;

pub const STARTING_START: usize = 284;

pub const FINAL_START: usize = 292;

pub const ROWS_START: usize = 300;
