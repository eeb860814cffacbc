//! Partial maps from the elements of the first shape to those of the second.

ghost use Rattle.std.specs.Prelude.{IfSome, IsTrue, None, Some, length, ℕ, ◌<◌, ◌↔◌, ◌≡◌};
ghost use Rattle.hs_overlap.specs.Tests.{Adds, DiffersAt, Fills, IsAlone, IsMap, HasNoPlaceFor, Puts, CannotAdd};
ghost use Rattle.hs_overlap.specs.Completions.{PartnersDiffer};
ghost use Rattle.hs_overlap.specs.Completions as spec;
ghost use Rattle.hs_types.specs.declared.limits.TheConstants.{MAX_PATTERN_EDGES, MAX_PATTERN_NODES};

use crate::Pair;

/// For each node and edge of the first side its partner on the second.
#[derive(Clone, Copy, PartialEq, Eq, Debug)]
pub struct Partners {
    pub nodes: [Option<usize>; 12],
    pub edges: [Option<usize>; 16],
}

pub fn partner(partners: &[Option<usize>], i: usize) -> Option<usize>
    ensures { result ≡ spec.partner partners.now i }
{
    match partners.get(i) {
        Some(partner) => *partner,
        None => None,
    }
}

pub fn is_partner(partners: &[Option<usize>], i: usize, j: usize) -> bool
    ensures { IsTrue result ↔ (spec.partner partners.now i ≡ Some j) }
{
    match partner(partners, i) {
        Some(k) => k == j,
        None => false,
    }
}

/// Whether it is the partner of some number.
pub fn is_taken(partners: &[Option<usize>], j: usize) -> bool
    ensures { IsTrue result ↔ (i : ℕ) × (spec.partner partners.now i ≡ Some j) }
{
    for i in 0..partners.len() {
        if is_partner(partners, i, j) {
            return true;
        }
    }
    false
}

pub fn all_differ(partners: &[Option<usize>]) -> bool
    ensures { IsTrue result ↔ PartnersDiffer partners.now }
{
    for i in 0..partners.len() {
        if !differs_at(partners, i) {
            return false;
        }
    }
    true
}

/// Whether the number's partner is no other number's.
fn differs_at(partners: &[Option<usize>], i: usize) -> bool
    ensures { IsTrue result ↔ DiffersAt partners.now i }
{
    match partner(partners, i) {
        Some(j) => is_alone(partners, i, j),
        None => true,
    }
}

/// Whether it is the partner of this number alone.
fn is_alone(partners: &[Option<usize>], i: usize, j: usize) -> bool
    ensures { IsTrue result ↔ IsAlone partners.now i j }
{
    for k in 0..partners.len() {
        if k != i && is_partner(partners, k, j) {
            return false;
        }
    }
    true
}

pub fn with_node(partners: &Partners, i: usize, j: usize) -> Partners
    requires { i < MAX_PATTERN_NODES }
    ensures long { length partners.now.nodes ≡ 12 }
    ensures nodes { result.nodes ≡ spec.put partners.now.nodes i (Some j) }
    ensures edges { result.edges ≡ partners.now.edges }
{
    let mut nodes = partners.nodes;
    nodes[i] = Some(j);
    Partners {
        nodes,
        edges: partners.edges,
    }
}

pub fn with_edge(partners: &Partners, x: usize, y: usize) -> Partners
    requires { x < MAX_PATTERN_EDGES }
    ensures long { length partners.now.edges ≡ 16 }
    ensures nodes { result.nodes ≡ partners.now.nodes }
    ensures edges { result.edges ≡ spec.put partners.now.edges x (Some y) }
{
    let mut edges = partners.edges;
    edges[x] = Some(y);
    Partners {
        nodes: partners.nodes,
        edges,
    }
}

/// The partners that the span says, or none where a number has two.
pub fn partners_of(span: &[Pair]) -> Option<Partners>
    ensures some { IfSome result (λ partners. Fills partners span.now) }
    ensures none { result ≡ None → IsMap span.now → ⊥ }
{
    let mut partners = no_partners();
    for pair in span {
        let Some(next) = add(&partners, *pair) else {
            return None;
        };
        partners = next;
    }
    Some(partners)
}

fn no_partners() -> Partners
    ensures nodes { (i j : ℕ) → spec.partner result.nodes i ≡ Some j → ⊥ }
    ensures edges { (x y : ℕ) → spec.partner result.edges x ≡ Some y → ⊥ }
{
    Partners {
        nodes: [None; 12],
        edges: [None; 16],
    }
}

fn add(partners: &Partners, pair: Pair) -> Option<Partners>
    ensures some { IfSome result (λ next. Adds partners.now pair next) }
    ensures none { result ≡ None → CannotAdd partners.now pair }
{
    match pair {
        Pair::Node(i, j) => add_node(partners, i, j),
        Pair::Edge(x, y) => add_edge(partners, x, y),
        Pair::Slot(_, _) => Some(*partners),
    }
}

/// With the pair of nodes, or none where the node has another partner or is no node.
fn add_node(partners: &Partners, i: usize, j: usize) -> Option<Partners>
    ensures some { IfSome result (λ next. Puts partners.now.nodes i j next.nodes
        × (next.edges ≡ partners.now.edges)) }
    ensures none { result ≡ None → HasNoPlaceFor partners.now.nodes MAX_PATTERN_NODES i j }
{
    match partner(&partners.nodes, i) {
        Some(k) => { if k == j { Some(*partners) } else { None } }
        None => {
            if i < 12 {
                Some(with_node(partners, i, j))
            } else {
                None
            }
        }
    }
}

fn add_edge(partners: &Partners, x: usize, y: usize) -> Option<Partners>
    ensures some { IfSome result (λ next. Puts partners.now.edges x y next.edges
        × (next.nodes ≡ partners.now.nodes)) }
    ensures none { result ≡ None → HasNoPlaceFor partners.now.edges MAX_PATTERN_EDGES x y }
{
    match partner(&partners.edges, x) {
        Some(k) => { if k == y { Some(*partners) } else { None } }
        None => {
            if x < 16 {
                Some(with_edge(partners, x, y))
            } else {
                None
            }
        }
    }
}
