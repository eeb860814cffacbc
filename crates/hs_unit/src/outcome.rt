//! Outcomes of attempts.

use hs_types::Outs;

/// How an attempt went, as a unit sees it.
#[derive(Debug, Drop)]
pub enum Outcome {
    /// The rule was applied, and gave these out values.
    Applied(Outs),
    /// No match was valid.
    Missed,
}
