// The limits that document 01 names.

// "94 to 1,048,576" words: a fresh store has 94, the words 1 to 93 are its entries
pub const FRESH_LENGTH: usize = 94;

pub const FRESH_ENTRIES: usize = 93;

pub const LONGEST: usize = 1048576;

// "n from 0 to 255": name bytes, elements, fields
pub const MOST_COUNTED: usize = 255;

// the text of an array's name, which stands in brackets, "255 bytes in all"
pub const LONGEST_TEXT: usize = MOST_COUNTED - 2;

// "at most 32", and the depth of the deepest type that an entry may hold
pub const DEEPEST: u64 = 32;

pub const DEEPEST_WITHIN: u64 = DEEPEST - 1;

// row 4 has "alias over 4,294,967,295"; so 2 × alias + final is at most twice as much, and 1
pub const LARGEST_ALIAS: u64 = 4294967295;

pub const LARGEST_FLAGS: u64 = 2 * LARGEST_ALIAS + 1;

// a flag is 0 or 1
pub const LARGEST_FLAG: u64 = 1;
