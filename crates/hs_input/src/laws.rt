//! What the definitions of what the program is given say together.

ghost use Rattle.std.specs.Prelude.{◌≡◌, ℕ, List, Some, None, codes, false, true};
ghost use Rattle.serde_json.specs.Data.{array, boolean, item, member, no_items, no_members, object, string};
ghost use Rattle.hs_text.specs.declared.syntax.Syntax.{Syntax};
ghost use Rattle.hs_types.specs.declared.request.Request.{Request};
ghost use Rattle.hs_json.specs.Reading.{Contents};
ghost use Rattle.hs_input.specs.declared.refusal.Refusal.{Refusal};
ghost use Rattle.hs_input.specs.Input.{IsBuilt};
ghost use Rattle.hs_input.specs.Refusing.{Refuses};
ghost use Rattle.hs_input.specs.Sessions.{call_in, has_none};

use hs_text::read_once;

/// Bytes are refused for one reason at most, and for none where they hold what is built.
pub fn refused_once()
    ensures one { (bytes : List ℕ) (a b : Refusal) → Refuses bytes a → Refuses bytes b → a ≡ b }
    ensures none { (bytes : List ℕ) (held : Contents) (syntax : Syntax)
        (sessions : List (List Request)) (refusal : Refusal)
        → IsBuilt bytes held syntax sessions → Refuses bytes refusal → ⊥ }
{
    read_once();
}

/// What sessions call, `[[{"call":"r"}]]` and four that call nothing that is built; and lists that
/// are left out, empty, not empty, and none.
pub fn calls_tried()
    ensures called { call_in
        (array (item (array (item (object (member (codes "call") (string (codes "r")) no_members))
        no_items)) no_items)) ≡ Some (codes "r") }
    ensures no_session { call_in (array no_items) ≡ None }
    ensures no_request { call_in (array (item (array no_items) no_items)) ≡ None }
    ensures no_text { call_in
        (array (item (array (item (object (member (codes "call") (boolean true) no_members))
        no_items)) no_items)) ≡ None }
    ensures further_key { call_in
        (array (item (array (item
        (object (member (codes "call") (string (codes "r"))
        (member (codes "group") (boolean false) no_members))) no_items)) no_items)) ≡ None }
    ensures left_out { has_none None ≡ true }
    ensures empty { has_none (Some (array no_items)) ≡ true }
    ensures not_empty { has_none (Some (array (item (boolean true) no_items))) ≡ false }
    ensures no_list { has_none (Some (object no_members)) ≡ false }
{}
