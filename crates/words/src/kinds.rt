// Document 01's table of kinds: the kinds, and the head word, "kind + 256 × depth + 65,536 × n". The same names stand in specs/Kinds.antt.
// Numbers and not an enum: a head is a lent word, in whose lowest byte any number may come, and the rows of document 01 test ranges of kinds.
pub const NAME: u64 = 0;

pub const BOT: u64 = 1;

pub const TOP: u64 = 2;

pub const CTRL: u64 = 3;

pub const XCTRL: u64 = 4;

pub const INT: u64 = 5;

pub const FLOAT: u64 = 6;

pub const TUPLE: u64 = 7;

pub const STRUCT: u64 = 8;

pub const FREF: u64 = 9;

pub const MEM_PTR: u64 = 10;

pub const MEM: u64 = 11;

// What the depth and n are multiplied with in a head: the kind is what is left of a head below DEPTH, n is a head divided by COUNT.
pub const DEPTH: u64 = 256;

pub const COUNT: u64 = 65536;

// The heads of entries that hold no type: depth 1, n 0.
pub const INT_HEAD: u64 = INT + DEPTH;

pub const FLOAT_HEAD: u64 = FLOAT + DEPTH;

pub const FREF_HEAD: u64 = FREF + DEPTH;

// The first kind that has parts of its own, and is opened by a walk.
pub const FIRST_WITH_PARTS: u64 = TUPLE;

// A head of no kind: no kind of the table is 255.
pub const NO_HEAD: u64 = 255;
