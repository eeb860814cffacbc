//! Why bytes are refused.

use hs_faults::RuleFault;
use hs_json::BundleFault;
use hs_text::FaultKind;

/// Why bytes that were read to their end are refused.
#[derive(Debug, Drop)]
pub enum Refusal {
    /// They are no bundle, or no metamodel or graph is in it.
    NoBundle(BundleFault),
    /// The text of the rules is none, from this place on: lines and columns count from 1, and a
    /// column counts characters.
    BadText {
        line: usize,
        column: usize,
        kind: FaultKind,
    },
    /// A rule or a unit is wrong.
    BadRule(RuleFault),
    /// Nothing is wrong, and what is asked for isn't built yet.
    NotBuilt,
}
