//! Runs of a bundle's requests, and the report that they give.
//!
//! `specs/LawfulReport.antt` says when a [`Report`] is lawful for an opening graph, rules and
//! sessions, and `specs/SerialReport.antt` when it is serial. Of any requests there is at most one
//! serial report in which each was served to its end ([`serial_reports_are_one`]). [`run_serial`]
//! takes today's requests, and these have one ([`one_serial_report`]).
#![tactic(auto)]

mod examples;
mod laws;
mod report;
mod serial;

pub use examples::{full_tried, outs_tried, replies_tried, reports_tried};
pub use laws::{
    lawful_reports_replay, one_serial_report, rules_are_tried_once, serial_reports_are_one,
};
pub use report::{Reply, Report, Word};
pub use serial::{run_nothing, run_serial};
