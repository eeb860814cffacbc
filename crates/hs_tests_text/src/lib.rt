//! Tests of public calls of the readers of rule texts: tokens, syntax, expressions, faults, and
//! what a text denotes. They are here so that the libraries are proved once.
#![tactic(auto)]

#[cfg(test)]
mod evaluation;
#[cfg(test)]
mod expressions;
#[cfg(test)]
mod faults;
#[cfg(test)]
mod meaning;
#[cfg(test)]
mod parsing;
#[cfg(test)]
mod printing;
#[cfg(test)]
mod reasons;
#[cfg(test)]
mod rule_faults;
#[cfg(test)]
mod tokens;
#[cfg(test)]
mod unit_faults;
