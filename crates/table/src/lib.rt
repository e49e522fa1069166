// The rule file: what a good one says. Nothing outside the lent file is read.

#![tactic(auto, unfolding(crate::specs::File::table_of))]

mod parts;
mod read;

pub use parts::{
    CLASS_COUNT, CLASSES_ENTRY, CLASSES_START, FINAL_ENTRY, FINAL_START, HEAD_SIZE, ROW_SIZE,
    ROWS_ENTRY, ROWS_START, SET_SIZE, STARTING_ENTRY, STARTING_START, WORDS_ENTRY, WORDS_LENGTH_AT,
};
pub use read::{
    Class, class_of, depth_cap, final_set, first_row, markers, row_class, row_count, row_from,
    row_marker, row_symbol, row_to, row_word, rows_from, starting_set, states, waiting_cap,
};
