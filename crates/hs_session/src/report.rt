//! Reports: the journal, the replies and the graph.

use hs_expr::List;
use hs_types::{Entry, ListGraph, Outs};

/// What a run of a bundle gives: its journal, a reply to each request, and the graph after it.
#[derive(Debug, Drop)]
pub struct Report {
    pub journal: List<Entry>,
    /// Session by session, in the order of the requests.
    pub replies: List<Reply>,
    pub graph: ListGraph,
}

/// The reply to a request.
#[derive(Debug, Drop)]
pub struct Reply {
    pub session: u32,
    pub request: u32,
    pub word: Word,
    /// The places of the request's entries in the journal.
    pub places: List<u32>,
    /// What the call gives back; nothing unless the word is `Ok`.
    pub outs: Outs,
}

/// How a request ended.
#[derive(Clone, Copy, PartialEq, Eq, Debug)]
pub enum Word {
    /// The rule was applied, or the unit succeeded.
    Ok,
    /// No match of the rule was valid.
    NoMatch,
    /// The unit failed.
    Failed,
    /// The fuel was used up.
    Fuel,
    /// The journal, or the numbers of objects or edges, were used up.
    Full,
    /// Out of memory.
    Memory,
    /// No rule and no unit has the name that is called.
    NoCall,
    /// The arguments aren't those that the callee takes.
    BadArgs,
}
