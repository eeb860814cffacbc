//! Faults of a part of a bundle: its form, or its meaning.

use hs_json_form::Path;

/// What is wrong at a path of a part of a bundle, where K says what can be wrong with its meaning.
#[derive(Debug, Drop)]
pub struct Fault<K> {
    pub path: Path,
    pub wrong: Wrong<K>,
}

/// What is wrong.
#[derive(Clone, Copy, PartialEq, Eq, Debug)]
pub enum Wrong<K> {
    /// A value of another kind than its place asks, an unknown key, or a key that is missing.
    Form,
    /// The form is right, and the meaning isn't.
    Meaning(K),
}
