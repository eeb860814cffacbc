//! What is true of the definitions.

ghost use Rattle.std.specs.Prelude.{◌≡◌, []};
ghost use Rattle.hs_types.specs.Limits.{IsSmallMeta};
ghost use Rattle.hs_types.specs.Metamodel.{IsMeta};
ghost use Rattle.hs_meta.specs.declared.raw.RawMeta.{RawMeta};
ghost use Rattle.hs_meta.specs.Faults.{model_faults};
ghost use Rattle.hs_meta.specs.Meaning.{metamodel_of};
ghost use Rattle.hs_types.specs.Reachability.{SaysReaches};

/// The test of reachability, by counted steps, says exactly that there is a path of one edge or
/// more; so of classes that one has the other among its supertypes.
pub fn below_is_reached()
    ensures { SaysReaches }
{}

/// Written classes without a fault denote a metamodel, and one that keeps the limits: at most 256
/// classes, each with at most 64 features.
pub fn metamodels_are_denoted()
    ensures whole { (raw : RawMeta) → model_faults raw.classes ≡ [] → IsMeta (metamodel_of raw) }
    ensures small { (raw : RawMeta) → model_faults raw.classes ≡ []
        → IsSmallMeta (metamodel_of raw) }
{}
