//! The definitions, tried on small values.

ghost use Rattle.std.specs.Prelude.{◌≡◌, [], ◌∷◌, None, pos, map, false};
ghost use Rattle.hs_expr.specs.declared.value.Value.TheVariants as value;
ghost use Rattle.hs_types.specs.declared.meta.DataType.TheVariants.{EInt, EString};
ghost use Rattle.hs_types.specs.declared.meta.FeatureKind.TheVariants.{Attribute, Reference};
ghost use Rattle.hs_meta.specs.declared.fault.ModelFaultKind.TheVariants as kind;
ghost use Rattle.hs_meta.specs.declared.fault.ModelPlace.TheVariants as place;
ghost use Rattle.hs_meta.specs.Faults.{model_fault, model_faults};
ghost use Rattle.hs_meta.specs.Meaning.{metamodel_of};
ghost use Rattle.hs_meta.specs.Samples.{cycle, diamond};

/// Of a diamond, where what is inherited by two ways is one feature.
pub fn inheritance()
    ensures right { model_faults diamond.classes ≡ [] }
    ensures supers { map (λ class. class.supers) (metamodel_of diamond).classes
        ≡ (1 ∷ 2 ∷ []) ∷ (3 ∷ []) ∷ (3 ∷ []) ∷ [] ∷ [] }
    ensures inherited { map (λ class. class.features) (metamodel_of diamond).classes
        ≡ (2 ∷ 1 ∷ 0 ∷ []) ∷ (2 ∷ 1 ∷ []) ∷ (2 ∷ []) ∷ (2 ∷ []) ∷ [] }
    ensures owners { map (λ feature. feature.owner) (metamodel_of diamond).features
        ≡ 0 ∷ 1 ∷ 3 ∷ [] }
    ensures kinds { map (λ feature. feature.kind) (metamodel_of diamond).features ≡ Reference 3
        false 1 None ∷ Attribute EString (value.Text []) ∷ Attribute EInt (value.Int (pos 0)) ∷ [] }
{}

/// Of a class that leads to a cycle, and one that lies on it.
pub fn cycles()
    ensures { model_faults cycle.classes ≡ model_fault (place.Class 1) kind.SuperCycle ∷ [] }
{}
