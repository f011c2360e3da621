// The types of the fresh store that a rule or an answer names, by the Rust's names (wellformed/specs/FreshHandles.antt).
pub const BOT: usize = 5;

pub const TOP: usize = 6;

pub const CTRL: usize = 7;

pub const XCTRL: usize = 8;

pub const INT_ZERO: usize = 9;

pub const INT_ONE: usize = 12;

pub const INT_BOOL: usize = 15;

pub const STRUCT_TOP: usize = 18;

pub const STRUCT_BOT: usize = 20;

pub const INT_TOP: usize = 22;

pub const INT_BOT: usize = 25;

pub const INT_I8: usize = 31;

pub const INT_I16: usize = 34;

pub const INT_I32: usize = 37;

pub const INT_U8: usize = 40;

pub const INT_U16: usize = 43;

pub const INT_U32: usize = 46;

pub const FLOAT_TOP: usize = 49;

pub const FLOAT_ZERO: usize = 55;

pub const FLOAT_B32: usize = 58;

pub const FLOAT_BOT: usize = 61;

pub const MEM_TOP: usize = 76;

pub const MEM_BOT: usize = 79;

pub const PTR_TOP: usize = 85;

pub const PTR_NULL: usize = 88;

pub const PTR_VOID: usize = 91;
