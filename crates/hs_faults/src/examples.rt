//! The definitions, tried on small rules.

ghost use Rattle.std.specs.Prelude.{◌≡◌, ◌++◌, [], ◌∷◌, codes};
ghost use Rattle.hs_text.specs.declared.syntax.Direction.TheVariants.{In, Out};
ghost use Rattle.hs_text.specs.declared.syntax.Mark.TheVariants.{Preserve, Create, Delete};
ghost use Rattle.hs_faults.specs.declared.fault.RuleFaultKind.TheVariants as kind;
ghost use Rattle.hs_faults.specs.Faults.{faults_of_rules};
ghost use Rattle.hs_faults.specs.UnitFaults.{faults_of_units};
ghost use Rattle.hs_faults.specs.Samples.{small_bank, call, edge, give, give_number, node_item, only_fault, only_unit, param, rule_definition, set, take, statement_faults_of, unit};

/// Repeated names, and parameters without their nodes.
pub fn names_tried()
    ensures fine { faults_of_rules small_bank
        (rule_definition (codes "r") (param In 1 (codes "a") (codes "Client") ∷ [])
        (node_item Delete 2 (codes "a") (codes "Client") ∷ []) ∷ []) ≡ [] }
    ensures rules { faults_of_rules small_bank (rule_definition (codes "r") [] []
        ∷ rule_definition (codes "r") [] [] ∷ []) ≡ only_fault 0 kind.Twice }
    ensures nodes { faults_of_rules small_bank
        (rule_definition (codes "r") [] (node_item Preserve 1 (codes "a") (codes "Client")
        ∷ node_item Create 2 (codes "a") (codes "Account") ∷ []) ∷ []) ≡ only_fault 2 kind.Twice }
    ensures classes { faults_of_rules small_bank
        (rule_definition (codes "r") [] (node_item Preserve 1 (codes "a") (codes "Ghost") ∷ [])
        ∷ []) ≡ only_fault 1 kind.UnknownClass }
    ensures sides { faults_of_rules small_bank
        (rule_definition (codes "r") (param Out 1 (codes "a") (codes "Client") ∷ []) (node_item
        Preserve 2 (codes "b") (codes "Client") ∷ []) ∷ []) ≡ only_fault 1 kind.UnknownNode }
    ensures kinds { faults_of_rules small_bank
        (rule_definition (codes "r") (param In 1 (codes "a") (codes "Client") ∷ []) (node_item
        Preserve 2 (codes "a") (codes "Account") ∷ []) ∷ []) ≡ only_fault 1 kind.ArgMismatch }
{}

/// Edges whose target is below the reference's class, and edges that may not be.
pub fn edges_tried()
    ensures fine { faults_of_rules small_bank (rule_definition (codes "r") []
        (node_item Preserve 1 (codes "a") (codes "Account") ∷ node_item Create 2 (codes "b")
        (codes "Account") ∷ edge Create 3 (codes "a") (codes "b") ∷ []) ∷ []) ≡ [] }
    ensures classes { faults_of_rules small_bank (rule_definition (codes "r") [] (node_item Preserve
        1 (codes "a") (codes "Account") ∷ node_item Preserve 2 (codes "b") (codes "Client")
        ∷ edge Preserve 3 (codes "a") (codes "b") ∷ []) ∷ []) ≡ only_fault 3 kind.BadEnds }
    ensures marks { faults_of_rules small_bank (rule_definition (codes "r") [] (node_item Preserve 1
        (codes "a") (codes "Client") ∷ node_item Create 2 (codes "b") (codes "Account")
        ∷ edge Preserve 3 (codes "a") (codes "b") ∷ []) ∷ []) ≡ only_fault 3 kind.BadEnds }
{}

/// Slots that are set, once and again.
pub fn sets_tried()
    ensures fine { statement_faults_of
        (node_item Preserve 1 (codes "a") (codes "Account") ∷ set 2 (codes "a") 5 ∷ []) ≡ [] }
    ensures again { statement_faults_of (node_item Preserve 1 (codes "a") (codes "Account")
        ∷ set 2 (codes "a") 5 ∷ set 3 (codes "a") 6 ∷ []) ≡ only_fault 3 kind.Twice }
    ensures deleted { statement_faults_of (node_item Delete 1 (codes "a") (codes "Account")
        ∷ set 2 (codes "a") 5 ∷ []) ≡ only_fault 2 kind.WriteOnDeleted }
    ensures unknown { statement_faults_of (node_item Preserve 1 (codes "a") (codes "Client")
        ∷ set 2 (codes "a") 5 ∷ []) ≡ only_fault 2 kind.UnknownAttribute }
{}

/// Units whose names and parameters are wrong.
pub fn units_tried()
    ensures fine { faults_of_units small_bank
        (unit 1 (codes "u") (param In 2 (codes "a") (codes "Client") ∷ []) [] ∷ []) ≡ [] }
    ensures rules { faults_of_units small_bank (unit 1 (codes "r") [] []
        ∷ rule_definition (codes "r") [] [] ∷ []) ≡ only_unit 1 kind.Twice }
    ensures units { faults_of_units small_bank
        (unit 1 (codes "u") [] [] ∷ unit 2 (codes "u") [] [] ∷ []) ≡ only_unit 2 kind.Twice }
    ensures params { faults_of_units small_bank
        (unit 1 (codes "u") (param In 2 (codes "a") (codes "int")
        ∷ param In 3 (codes "a") (codes "int") ∷ []) [] ∷ []) ≡ only_unit 3 kind.Twice }
    ensures classes { faults_of_units small_bank (unit 1 (codes "u")
        (param In 2 (codes "a") (codes "Ghost") ∷ []) [] ∷ []) ≡ only_unit 2 kind.UnknownClass }
    ensures data { faults_of_units small_bank (unit 1 (codes "u")
        (param Out 2 (codes "a") (codes "int") ∷ []) [] ∷ []) ≡ only_unit 2 kind.ArgMismatch }
{}

/// Calls of a unit that wants a number and an object, and gives one back.
pub fn calls_tried()
    ensures fine { faults_of_units small_bank (unit 1 (codes "u")
        (param In 2 (codes "a") (codes "Account") ∷ param Out 3 (codes "o") (codes "Client") ∷ [])
        (call 4 (codes "v") (give_number (codes "n") 5 ∷ give (codes "c") (codes "a")
        ∷ take (codes "d") (codes "o") ∷ []) ∷ [])
        ∷ unit 5 (codes "v") (param In 6 (codes "n") (codes "int")
        ∷ param In 7 (codes "c") (codes "Client") ∷ param Out 8 (codes "d") (codes "Account") ∷ [])
        [] ∷ []) ≡ [] }
    ensures unknown { faults_of_units small_bank
        (unit 1 (codes "u") [] (call 2 (codes "v") [] ∷ []) ∷ []) ≡ only_unit 2 kind.UnknownUnit }
    ensures unbound { faults_of_units small_bank
        (unit 1 (codes "u") [] (call 2 (codes "v") [] ∷ []) ∷ unit 3 (codes "v")
        (param In 4 (codes "n") (codes "int") ∷ []) [] ∷ []) ≡ only_unit 2 kind.ArgMismatch }
    ensures above { faults_of_units small_bank
        (unit 1 (codes "u") (param In 2 (codes "a") (codes "Client") ∷ [])
        (call 3 (codes "v") (give (codes "c") (codes "a") ∷ []) ∷ []) ∷ unit 4 (codes "v")
        (param In 5 (codes "c") (codes "Account") ∷ []) [] ∷ []) ≡ only_unit 3 kind.ArgMismatch }
    ensures into { faults_of_units small_bank
        (unit 1 (codes "u") (param In 2 (codes "a") (codes "Client") ∷ [])
        (call 3 (codes "v") (take (codes "d") (codes "a") ∷ []) ∷ []) ∷ unit 4 (codes "v")
        (param Out 5 (codes "d") (codes "Client") ∷ []) [] ∷ []) ≡ only_unit 3 kind.ArgMismatch }
    ensures optional { faults_of_units small_bank
        (unit 1 (codes "u") [] (call 3 (codes "v") [] ∷ [])
        ∷ unit 4 (codes "v") (param Out 5 (codes "d") (codes "Client") ∷ []) [] ∷ []) ≡ [] }
{}

/// Units that call each other, and one that only_fault calls those.
pub fn cycles_tried()
    ensures pair { faults_of_units small_bank
        (unit 1 (codes "u") [] (call 2 (codes "v") [] ∷ []) ∷ unit 3 (codes "v") []
        (call 4 (codes "w") [] ∷ []) ∷ unit 5 (codes "w") [] (call 6 (codes "v") [] ∷ []) ∷ [])
        ≡ only_unit 3 kind.UnitCycle ++ only_unit 5 kind.UnitCycle }
    ensures itself { faults_of_units small_bank
        (unit 1 (codes "u") [] (call 2 (codes "u") [] ∷ []) ∷ []) ≡ only_unit 1 kind.UnitCycle }
{}
