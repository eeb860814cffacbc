//! Models as JSON values: metamodels, and typed graphs over them.
//!
//! [`read_meta`] gives the metamodel that a value is, and [`read_graph`] the typed graph over a
//! metamodel; or the first fault with its path. Faults of form ([`raw_meta`], [`raw_objects`]) come
//! before those of meaning. [`write_graph`] gives the text of a graph, and [`with_graph`] puts it
//! after another text.
#![tactic(auto)]

mod fault;
mod graph;
mod graph_form;
mod graph_text;
pub mod laws;
mod lines;
mod meta;
mod meta_form;
mod paths;
mod values;
mod words;

pub use fault::{Fault, Wrong};
pub use graph::{GraphFailure, read_graph};
pub use graph_form::raw_objects;
pub use graph_text::{with_graph, write_graph};
pub use lines::add_line;
pub use meta::{MetaFailure, read_meta};
pub use meta_form::raw_meta;
pub use values::{
    Members, attrs_value, class_name, datum_value, feature_name, list_value, text_value,
    texts_value,
};
pub use words::{graph_fault_text, model_fault_text};
