// A coded word in seven rows of 2,160 bits, a row in lines of 72 columns. What stands at one place of all seven rows is one number of
// seven bits, the first row's lowest, and moves as one: step 5 then has 2,160 numbers to move, and not 15,120 bits.
//
//                 line 0             line 1                   line 29
//     row 0   |     0 ..    71 |    72 ..   143 |   ..   |  2088 ..  2159 |    bit 0 of the numbers
//     row 1   |  2160 ..  2231 |  2232 ..  2303 |   ..   |  4248 ..  4319 |    bit 1
//      ..            ..               ..                        ..
//     row 6   | 12960 .. 13031 | 13032 .. 13103 |   ..   | 15048 .. 15119 |    bit 6
//
// Why it is so. Word place j takes coded bit 11 j + 210 j² mod 15,120, and the second term is one of 36 constants, by j mod 36. So 72
// places on, which are whole bytes too, the bit is 792 on: 11 lines, in the same column. And 2,160 places on it is 30 times as far, 11
// rows: bits that stand 2,160 apart in the word stand so among the coded bits.
//
// Here are the moves, whatever the 36 constants are: numbers made of coded bits (`mixing`) by masks that say which bit of a number each
// row fills (`masks`); numbers of other rows, and lines in another order (`rows`); numbers taken column by column, and split into coded
// bits (`picking`).
#![tactic(auto)]

pub mod masks;
pub mod mixing;
pub mod picking;
pub mod rows;

// The rows of a word and the bits of a row, which rows are apart: 15,120 = 7 · 2,160.
pub const ROWS: usize = 7;

pub const ROW: usize = 2160;

// The columns of a line, twice the 36 places after which the constants repeat: nine whole bytes.
pub const COLUMNS: usize = 72;

pub const LINE_BYTES: usize = COLUMNS / 8;

// The lines of a row, and those of a word.
pub const LINES: usize = ROW / COLUMNS;

pub const WORD_LINES: usize = ROWS * LINES;

// The bytes of a plane: 30 lines of nine. Eight planes have the eight bits of the bytes of a word, each byte of a plane seven of them.
pub const PLANE: usize = LINES * LINE_BYTES;

// Two lines are moved in a loop, since 144 columns are a multiple of sixteen and 72 are not. So many twos a row has, and a word.
pub const TWO_LINES: usize = 2 * COLUMNS;

pub const ROW_TWOS: usize = LINES / 2;

pub const WORD_TWOS: usize = WORD_LINES / 2;

// A mask for each row and each column of two lines; those of the rows after the first.
pub const MASKS: usize = ROWS * TWO_LINES;

pub const FURTHER_MASKS: usize = MASKS - TWO_LINES;

// Numbers, and after them the same numbers from the next row on: a column that passes the last line goes on there.
pub const DOUBLE_ROW: usize = 2 * ROW;

pub const DOUBLE_PLANE: usize = 2 * PLANE;
