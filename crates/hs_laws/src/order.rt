//! The order of matches is total.

ghost use Rattle.std.specs.Prelude.{◌≡◌, ◌⊎◌, ◌++◌, ℕ, Option, length};
ghost use Rattle.hs_types.specs.declared.graph.Graph.{Graph};
ghost use Rattle.hs_types.specs.declared.matching.Extension.{Extension};
ghost use Rattle.hs_types.specs.declared.matching.Match.{Match};
ghost use Rattle.hs_types.specs.declared.meta.Metamodel.{Metamodel};
ghost use Rattle.hs_types.specs.declared.request.Args.{Args};
ghost use Rattle.hs_types.specs.declared.rule.Rule.{Rule};
ghost use Rattle.hs_types.specs.declared.rule.Shape.{Shape};
ghost use Rattle.hs_expr.specs.Lexicographic.{IsBefore};
ghost use Rattle.hs_types.specs.MatchOrder.{IsEarlier, IsFirstOf, IsNextOf};
ghost use Rattle.hs_types.specs.PlainMatch.{Extends, kernel_of};
ghost use Rattle.hs_types.specs.ValidMatch.{IsFirst, IsLeast, IsNext, IsValid};

/// Of two different extensions exactly one is the earlier. Where they have as many nodes, it is the
/// one of which the list of nodes and then edges is the lesser in lexicographic order.
pub fn order_is_total()
    ensures irreflexive { (x : Extension) → IsEarlier x x → ⊥ }
    ensures transitive { (x y z : Extension) → IsEarlier x y → IsEarlier y z → IsEarlier x z }
    ensures one_list { (x y : Extension) → length x.nodes ≡ length y.nodes
        → (IsEarlier x y → IsBefore (x.nodes ++ x.edges) (y.nodes ++ y.edges))
        × (IsBefore (x.nodes ++ x.edges) (y.nodes ++ y.edges) → IsEarlier x y) }
    ensures total { (x y : Extension) → IsEarlier x y ⊎ ((x ≡ y) ⊎ IsEarlier y x) }
{}

/// A valid match is determined by its kernel. A search for the first match, or for the next one
/// after a match, has one answer, and so has one for extensions.
pub fn least_is_unique()
    ensures by_kernel { (m : Metamodel) (g : Graph) (rule : Rule) (args : Args) (f h : Match)
        → IsValid m g rule args f → IsValid m g rule args h → kernel_of f ≡ kernel_of h → f ≡ h }
    ensures least { (m : Metamodel) (g : Graph) (rule : Rule) (args : Args) (f h : Match)
        → IsLeast m g rule args f → IsLeast m g rule args h → f ≡ h }
    ensures first { (m : Metamodel) (g : Graph) (rule : Rule) (args : Args) (a b : Option Match)
        → IsFirst m g rule args a → IsFirst m g rule args b → a ≡ b }
    ensures next { (m : Metamodel) (g : Graph) (rule : Rule) (args : Args) (after : Match)
        (a b : Option Match)
        → IsNext m g rule args after a → IsNext m g rule args after b → a ≡ b }
    ensures first_extension { (m : Metamodel) (g : Graph) (base part : Shape) (f : Extension)
        (a b : Option Extension) → IsFirstOf (Extends m g base f part) a
        → IsFirstOf (Extends m g base f part) b → a ≡ b }
    ensures next_extension { (m : Metamodel) (g : Graph) (base part : Shape) (f after : Extension)
        (a b : Option Extension) → IsNextOf (Extends m g base f part) after a
        → IsNextOf (Extends m g base f part) after b → a ≡ b }
{}
