//! Groups in journals, and entries that aren't lawful by each cause.

ghost use Rattle.std.specs.Prelude.{◌≡◌, ◌∷◌, [], codes, true};
ghost use Rattle.hs_types.specs.declared.entry.Cause.TheVariants as cause;
ghost use Rattle.hs_types.specs.declared.entry.What.TheVariants.{One};
ghost use Rattle.hs_types.specs.Journal.{IsLawful, IsUnlawfulAt, after_journal};
ghost use Rattle.hs_laws.specs.Bank.{adds_to_one, all_drawn, args_of, bank_rules, both_done, client_with_new_account, grouped, lone_rules, made_client, makes_first, makes_second, nothing, one, one_made, tried, undone};

/// A group that isn't done leaves its names free, but its attempts are counted; in a group each
/// attempt is in the graph after the one before.
pub fn groups_tried()
    ensures undone { IsLawful lone_rules nothing
        (undone ∷ one 1 (makes_first (codes "#0")) ∷ []) }
    ensures undone_graph { after_journal lone_rules nothing (undone ∷ []) ≡ nothing }
    ensures done { IsLawful lone_rules nothing (both_done ∷ []) }
    ensures counted { IsLawful lone_rules nothing
        (undone ∷ one 0 (makes_second (codes "#0")) ∷ []) }
    ensures counted_again { IsUnlawfulAt lone_rules nothing
        ((0, undone) ∷ (1, one 0 (makes_first (codes "#0"))) ∷ []) 1 cause.Number }
    ensures same_name { IsUnlawfulAt lone_rules nothing
        ((0, grouped (makes_first (codes "#0") ∷ makes_second (codes "#0") ∷ []) true) ∷ []) 0
        cause.New }
{}

/// Entries that are refused: of no session, of a request before that of an earlier entry, at no
/// rule, with more objects than there are numbers, and with another value before.
pub fn entries_refused()
    ensures session { IsUnlawfulAt lone_rules nothing ((
      0,
      record {
        session = 64;
        request = 0;
        what = One (makes_first (codes "#0"));
      },
    ) ∷ []) 0 cause.Number }
    ensures request { IsUnlawfulAt lone_rules nothing
        ((0, one 1 (makes_first (codes "#0"))) ∷ (1, one 0 (makes_first (codes "#1"))) ∷ []) 1
        cause.Number }
    ensures rule { IsUnlawfulAt lone_rules nothing
        ((0, one 0 (tried 1 (args_of []) (made_client (codes "#0")))) ∷ []) 0 cause.Rule }
    ensures numbers { IsUnlawfulAt lone_rules all_drawn
        ((0, one 0 (makes_first (codes "#0"))) ∷ []) 0 cause.New }
    ensures old { IsUnlawfulAt bank_rules client_with_new_account
        ((0, adds_to_one) ∷ []) 0 cause.Old }
{}
