// Document 01's table of kinds, "words after the head": how far behind its head each word of an entry stands. specs/Columns.antt has the same as definitions.

// Int: min, max
pub const MIN: usize = 1;

pub const MAX: usize = 2;

// Float: sz + 64, the constant's bits
pub const SIZE: usize = 1;

pub const BITS: usize = 2;

// Tuple: the elements, one behind the other
pub const ELEMENTS: usize = 1;

// Struct and forward reference: the name's handle; behind it a struct's fields, of three words each: field name, type, 2 × alias + final
pub const NAME: usize = 1;

pub const FIELDS: usize = 2;

pub const FIELD_TYPES: usize = 3;

pub const FIELD_FLAGS: usize = 4;

pub const FIELD: usize = 3;

// within a field
pub const FIELD_TYPE: usize = 1;

pub const FLAGS: usize = 2;

pub const FLAGS_BEHIND_TYPE: usize = FLAGS - FIELD_TYPE;

// MemPtr: struct or forward reference, nil
pub const TARGET: usize = 1;

pub const NIL: usize = 2;

// Mem: alias, type
pub const ALIAS: usize = 1;

pub const INNER: usize = 2;

// A field as it is lent, of four words: name, type, alias, final
pub const LENT_FIELD: usize = 4;

pub const LENT_NAME: usize = 0;

pub const LENT_TYPE: usize = 1;

pub const LENT_ALIAS: usize = 2;

pub const LENT_FINAL: usize = 3;
