//! Reports, tried on what they must accept and on what they must refuse.

ghost use Rattle.std.specs.Prelude.{◌≡◌, ◌∷◌, ℕ, List, [], codes, false, length, map, true};
ghost use Rattle.hs_types.specs.declared.entry.Entry.{Entry};
ghost use Rattle.hs_types.specs.declared.graph.Graph.{Graph};
ghost use Rattle.hs_unit.specs.Courses.{Course, Done, Left};
ghost use Rattle.hs_laws.specs.Bank.{adds, bank_rules, just_client, lone_rules, opens};
ghost use Rattle.hs_session.specs.declared.report.Report.{Report};
ghost use Rattle.hs_session.specs.declared.report.Word.TheVariants as word;
ghost use Rattle.hs_session.specs.Full.{Application, IsApplicable, IsCut, IsFullAfter, IsLong, Pass};
ghost use Rattle.hs_session.specs.LawfulReport.{IsLawfulReport};
ghost use Rattle.hs_session.specs.Requests.{all_asked};
ghost use Rattle.hs_session.specs.Samples.{Answered, OpeningAnswered, asks, asks_with, drawn, gave_client, gives, makes_client, makes_one, missed_in_group, missed_once, one_arg, opening, opening_asked, says, second_asked, three_entries};
ghost use Rattle.hs_session.specs.SerialReport.{IsSerialReport};
ghost use Rattle.hs_session.specs.Standing.{made_along, outcome_made};

/// Each attempt of a group sees the graph after those before it.
pub fn outs_tried()
    ensures { map (outcome_made lone_rules) (made_along lone_rules (drawn 0)
        (makes_client (codes "#0") ∷ makes_client (codes "#1") ∷ []))
        ≡ gave_client (codes "#0") ∷ gave_client (codes "#1") ∷ [] }
{}

/// Replies to calls of what isn't there, with arguments that don't fit, and of a rule that missed,
/// with and without a group.
pub fn replies_tried()
    ensures no_call { Answered (asks (codes "none") false) [] (says word.NoCall []) }
    ensures no_other_call { Answered (asks (codes "none") false) [] (says word.NoMatch []) → ⊥ }
    ensures bad_args { Answered (asks_with (codes "rule") one_arg false) []
        (says word.BadArgs []) }
    ensures not_run { Answered (asks_with (codes "rule") one_arg false) (missed_once ∷ [])
        (says word.NoMatch (0 ∷ [])) → ⊥ }
    ensures missed { Answered (asks (codes "rule") false) (missed_once ∷ [])
        (says word.NoMatch (0 ∷ [])) }
    ensures not_ok { Answered (asks (codes "rule") false) (missed_once ∷ [])
        (says word.Ok (0 ∷ [])) → ⊥ }
    ensures its_place { Answered (asks (codes "rule") false) (missed_once ∷ [])
        (says word.NoMatch []) → ⊥ }
    ensures not_tried { Answered (asks (codes "rule") false) [] (says word.NoMatch []) → ⊥ }
    ensures out_of_memory { Answered (asks (codes "rule") false) [] (says word.Memory []) }
    ensures grouped { Answered (asks (codes "rule") true) (missed_in_group false ∷ [])
        (says word.NoMatch (0 ∷ [])) }
    ensures not_done { Answered (asks (codes "rule") true) (missed_in_group true ∷ [])
        (says word.NoMatch (0 ∷ [])) → ⊥ }
    ensures not_single { Answered (asks (codes "rule") true) (missed_once ∷ [])
        (says word.NoMatch (0 ∷ [])) → ⊥ }
    ensures dropped { Answered (asks (codes "rule") true) [] (says word.NoMatch []) → ⊥ }
{}

/// Cuts, long journals and numbers that are passed; and what `full` is not for.
pub fn full_tried()
    ensures cut { IsCut second_asked three_entries 1 }
    ensures later_cut { IsCut second_asked three_entries 2 }
    ensures too_early { IsCut second_asked three_entries 0 → ⊥ }
    ensures too_late { IsCut second_asked three_entries 3 → ⊥ }
    ensures beyond { IsCut second_asked [] 1 → ⊥ }
    ensures long { (journal : List Entry) → length journal ≡ 999937 → IsLong journal }
    ensures not_long { (journal : List Entry) → length journal ≡ 999936 → IsLong journal → ⊥ }
    ensures passed { Pass (drawn 1000000000) (makes_one ∷ []) }
    ensures room_left { Pass (drawn 999999999) (makes_one ∷ []) → ⊥ }
    ensures passed_together { Pass (drawn 999999999) (makes_one ∷ makes_one ∷ []) }
    ensures over { (journal : List Entry) (left : Left)
        → IsFullAfter lone_rules (drawn 0) journal second_asked (Done left) → ⊥ }
    ensures foreign_rule { (g : Graph) (a : Application)
        → IsApplicable (record { meta = lone_rules.meta; rules = []; units = [] }) g a → ⊥ }
{}

/// The reply to a request that opened an account, the same out of memory, and replies with another
/// word, another place or no out value, which aren't replies to it. And reports that aren't lawful,
/// since a request has no reply or an entry was not asked for, or not serial, since entries are in
/// another order.
pub fn reports_tried()
    ensures numbers { all_asked ((opening ∷ []) ∷ []) ≡ opening_asked ∷ [] }
    ensures answered { OpeningAnswered (gives word.Ok (0 ∷ []) (codes "#0")) }
    ensures memory { OpeningAnswered (says word.Memory (0 ∷ [])) }
    ensures other_word { OpeningAnswered (says word.NoMatch (0 ∷ [])) → ⊥ }
    ensures other_place { OpeningAnswered (gives word.Ok (1 ∷ []) (codes "#0")) → ⊥ }
    ensures other_out { OpeningAnswered (gives word.Ok (0 ∷ []) (codes "#1")) → ⊥ }
    ensures no_out { OpeningAnswered (says word.Ok (0 ∷ [])) → ⊥ }
    ensures no_reply { (report : Report) → report.replies ≡ []
        → IsLawfulReport bank_rules just_client ((opening ∷ []) ∷ []) report → ⊥ }
    ensures not_asked { (report : Report) → report.journal ≡ opens ∷ []
        → IsLawfulReport bank_rules just_client [] report → ⊥ }
    ensures other_order { (report : Report) → report.journal ≡ adds ∷ opens ∷ []
        → IsSerialReport bank_rules just_client ((opening ∷ opening ∷ []) ∷ []) report → ⊥ }
{}
