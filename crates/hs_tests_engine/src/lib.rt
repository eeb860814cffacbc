//! Tests of public calls of the kit, the definitions and the engine. They are here so that the
//! libraries are proved once.
#![tactic(auto)]

#[cfg(test)]
mod conformance;
#[cfg(test)]
mod matching;
#[cfg(test)]
mod searches;
#[cfg(test)]
mod sources;
#[cfg(test)]
mod steps;
#[cfg(test)]
mod texts;
