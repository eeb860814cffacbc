//! The sizes that inputs keep. What goes beyond one is refused.

pub use hs_expr::MAX_NESTING;

/// The most classes of a metamodel.
pub const MAX_CLASSES: usize = 256;

/// The most features of a class, inherited ones included.
pub const MAX_FEATURES: usize = 64;

/// The most bytes of the name of a class or a feature.
pub const MAX_IDENTIFIER_BYTES: usize = 64;

/// The most objects of an opening graph.
pub const MAX_OBJECTS: usize = 200_000;

/// The most edges of an opening graph.
pub const MAX_EDGES: usize = 400_000;

/// The most bytes of an object's name.
pub const MAX_NAME_BYTES: usize = 128;

/// The greatest k of a name `#k` in an opening graph.
pub const MAX_NAME_NUMBER: u64 = 3_000_000_000;

/// The most bytes of a text that an object of an opening graph has for an attribute.
pub const MAX_TEXT_BYTES: usize = 65_536;

/// The most objects, and the most edges, that are ever drawn, opening ones included.
pub const MAX_NUMBERS: u64 = 1_000_000_000;

/// The most rules of a rule set.
pub const MAX_RULES: usize = 64;

/// The most units of a rule set.
pub const MAX_UNITS: usize = 64;

/// The most parameters of a rule or a unit.
pub const MAX_PARAMS: usize = 16;

/// The most forbid and require blocks of a rule together.
pub const MAX_PATTERN_BLOCKS: usize = 8;

/// The most multi blocks of a rule.
pub const MAX_MULTI_BLOCKS: usize = 4;

/// The most nodes of a kernel, and of a block.
pub const MAX_PATTERN_NODES: usize = 12;

/// The most edges of a kernel, and of a block.
pub const MAX_PATTERN_EDGES: usize = 16;

/// The most edges of one source, reference and target in a kernel or a block.
pub const MAX_PARALLEL_EDGES: usize = 3;

/// The most calls of a unit.
pub const MAX_CALLS: usize = 16;

/// The most sessions.
pub const MAX_SESSIONS: u32 = 64;

/// The most entries of a journal.
pub const MAX_ENTRIES: u32 = 1_000_000;
