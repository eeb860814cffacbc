//! Types whose clones and comparisons are exact.

ghost use Rattle.std.specs.Prelude.{◌≡◌, ◌↔◌, IsTrue, true};
ghost use Rattle.std.proofs.Common.{rules};

/// A type whose clones are the value itself.
pub trait Plain: Clone {
    ghost copies: { (x y : Self) → Self.is_clone x y → y ≡ x };
}

/// A type whose `==` says whether two values are the same.
pub trait Exact: PartialEq {
    ghost equals: { (x y : Self) → (Self.eq x y ≡ true) ↔ (x ≡ y) };

    /// Whether the two are the same value.
    final fn is(&self, other: &Self) -> bool
        ensures { IsTrue result ↔ (self.now ≡ other.now) }
    {
        self.eq(other)
    }
}

impl Plain for u16 {
    ghost copies = { Prim.search rules };
}

impl Exact for u16 {
    ghost equals = { Prim.search rules };
}

impl Plain for u32 {
    ghost copies = { Prim.search rules };
}

impl Exact for u32 {
    ghost equals = { Prim.search rules };
}
