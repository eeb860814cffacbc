//! Journals that stay lawful.

ghost use Rattle.std.specs.Prelude.{◌≡◌, ◌++◌, ◌∷◌, ℕ, List, [], length, take};
ghost use Rattle.hs_types.specs.declared.entry.Cause.{Cause};
ghost use Rattle.hs_types.specs.declared.entry.Entry.{Entry};
ghost use Rattle.hs_types.specs.declared.entry.Outcome.TheVariants.{Missed};
ghost use Rattle.hs_types.specs.declared.entry.Tried.{Tried};
ghost use Rattle.hs_types.specs.declared.graph.Graph.{Graph};
ghost use Rattle.hs_types.specs.Rules.{AreFormed, Rules};
ghost use Rattle.hs_types.specs.Journal.{AreLawfulTries, IsLawful, IsLawfulTry, IsLawfulEntry, IsLawfulWritten, IsUnlawfulAt, after_entry, after_journal, after_try, tries_in};
ghost use Rattle.hs_types.specs.TypedGraph.{IsTyped};

/// Each prefix of a lawful journal is lawful, and the graph after it is typed.
pub fn journals_stay_lawful()
    ensures prefixes { (rules : Rules) (opening : Graph) (entries : List Entry) (n : ℕ)
        → IsLawful rules opening entries → IsLawful rules opening (take n entries) }
    ensures typed { (rules : Rules) (opening : Graph) (entries : List Entry) (n : ℕ)
        → AreFormed rules → IsTyped rules.meta opening → IsLawful rules opening entries
        → IsTyped rules.meta (after_journal rules opening (take n entries)) }
{}

/// A lawful attempt leaves a typed graph, and so does an entry of lawful attempts.
pub fn attempts_stay_typed()
    ensures attempts { (rules : Rules) (g : Graph) (tried : Tried)
        → AreFormed rules → IsTyped rules.meta g → IsLawfulTry rules g tried
        → IsTyped rules.meta (after_try rules g tried) }
    ensures entries { (rules : Rules) (g : Graph) (entry : Entry)
        → AreFormed rules → IsTyped rules.meta g → AreLawfulTries rules g (tries_in entry.what)
        → IsTyped rules.meta (after_entry rules g entry) }
{}

/// A lawful journal with one more entry that is lawful after it is lawful, and its graph is the
/// one after that entry.
pub fn journals_go_on()
    ensures lawful { (rules : Rules) (opening : Graph) (entries : List Entry) (entry : Entry)
        → IsLawful rules opening entries
        → IsLawfulEntry rules entries (after_journal rules opening entries) (length entries) entry
        → IsLawful rules opening (entries ++ entry ∷ []) }
    ensures graph { (rules : Rules) (opening : Graph) (entries : List Entry) (entry : Entry)
        → after_journal rules opening (entries ++ entry ∷ [])
        ≡ after_entry rules (after_journal rules opening entries) entry }
{}

/// A written journal is lawful, or it has one first entry and one first cause by which it isn't,
/// and not both. (That it is one of the two is said without a choice: it isn't neither.)
pub fn lawful_or_not()
    ensures one_cause { (rules : Rules) (opening : Graph) (written : List (ℕ × Entry)) (p q : ℕ)
        (c d : Cause)
        → IsUnlawfulAt rules opening written p c → IsUnlawfulAt rules opening written q d
        → (p ≡ q) × (c ≡ d) }
    ensures not_both { (rules : Rules) (opening : Graph) (written : List (ℕ × Entry))
        (position : ℕ) (asked : Cause)
        → IsUnlawfulAt rules opening written position asked
        → IsLawfulWritten rules opening written → ⊥ }
    ensures not_neither { (rules : Rules) (opening : Graph) (written : List (ℕ × Entry))
        → ((position : ℕ) (asked : Cause)
        → IsUnlawfulAt rules opening written position asked → ⊥)
        → (IsLawfulWritten rules opening written → ⊥) → ⊥ }
{}

/// An attempt that missed leaves the graph as it was.
pub fn missed_attempts_change_nothing()
    ensures { (rules : Rules) (g : Graph) (tried : Tried)
        → tried.outcome ≡ Missed → after_try rules g tried ≡ g }
{}
