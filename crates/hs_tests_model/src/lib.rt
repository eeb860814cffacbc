//! Tests of public calls of the readers of bundles: reachability, metamodels, graphs, and their
//! JSON values. They are here so that the libraries are proved once.
#![tactic(auto)]

mod model;

pub use model::{graph_of, model_of};

#[cfg(test)]
mod bundles;
#[cfg(test)]
mod graphs;
#[cfg(test)]
mod hosts;
#[cfg(test)]
mod inputs;
#[cfg(test)]
mod json_faults;
#[cfg(test)]
mod json_forms;
#[cfg(test)]
mod json_models;
#[cfg(test)]
mod metamodels;
#[cfg(test)]
mod reachability;
