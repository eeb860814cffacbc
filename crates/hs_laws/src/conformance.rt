//! Conformance is an order, and features are inherited.

ghost use Rattle.std.specs.Prelude.{◌≡◌, ℕ, true};
ghost use Rattle.hs_types.specs.declared.meta.Metamodel.{Metamodel};
ghost use Rattle.hs_expr.specs.Lists.{has};
ghost use Rattle.hs_types.specs.Metamodel.{Conforms, IsMeta, attributes_of, features_of};

/// Conformance is an order over a metamodel, and a class has the features and the attributes of
/// each class that it conforms to.
pub fn conformance_is_an_order()
    ensures reflexive { (m : Metamodel) (c : ℕ) → Conforms m c c }
    ensures transitive { (m : Metamodel) (a b c : ℕ) → Conforms m a b → Conforms m b c
        → Conforms m a c }
    ensures antisymmetric { (m : Metamodel) (a b : ℕ) → IsMeta m → Conforms m a b → Conforms m b a
        → a ≡ b }
    ensures features { (m : Metamodel) (c d f : ℕ) → IsMeta m → Conforms m c d
        → has (features_of m d) f ≡ true → has (features_of m c) f ≡ true }
    ensures attributes { (m : Metamodel) (c d a : ℕ) → IsMeta m → Conforms m c d
        → has (attributes_of m d) a ≡ true → has (attributes_of m c) a ≡ true }
{}
