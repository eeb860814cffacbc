//! Pairs and spans.

use hs_expr::List;

/// Two elements of one kind, by their numbers: one of the first shape, one of the second.
#[derive(Clone, Copy, PartialEq, Eq, Debug)]
pub enum Pair {
    Node(usize, usize),
    Edge(usize, usize),
    Slot(usize, usize),
}

/// The pairs in order: nodes before edges before slots, and of one kind by their numbers.
pub type Span = List<Pair>;
