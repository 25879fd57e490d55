// The sizes of rows, lines and columns in 16 bits, in which many columns are divided at once.
pub const ROWS: u16 = word_columns::ROWS as u16;

pub const ROW: u16 = word_columns::ROW as u16;

pub const COLUMNS: u16 = word_columns::COLUMNS as u16;

pub const LINES: u16 = word_columns::LINES as u16;

pub const LINE_BYTES: u16 = word_columns::LINE_BYTES as u16;

pub const WORD_LINES: u16 = word_columns::WORD_LINES as u16;

pub const DOUBLE_PLANE: u16 = word_columns::DOUBLE_PLANE as u16;
