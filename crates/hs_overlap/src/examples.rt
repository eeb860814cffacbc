//! Conflict reasons, tried on rules of a small bank.

ghost use Rattle.std.specs.Prelude.{[], ◌∷◌};
ghost use Rattle.hs_laws.specs.Bank.{add, drop_client, model, open_account, touch};
ghost use Rattle.hs_overlap.specs.declared.pair.Pair.TheVariants.{Node, Slot};
ghost use Rattle.hs_overlap.specs.Reasons.{IsReason};
ghost use Rattle.hs_overlap.specs.Rows.{IsConflictAtom, IsReasonPart, IsRow};
ghost use Rattle.hs_overlap.specs.declared.table.Need.TheVariants.{Require};
ghost use Rattle.hs_overlap.specs.Weights.{IsWeight};

use crate::laws::{glue, reasons_are_spans, what_reasons_pair};
use hs_laws::metamodels;

/// Two applications of the rule that adds to a balance are in conflict where their accounts are
/// one: the account with its balance is a reason. Not a reason are the account without its balance,
/// the list out of order, one that has a pair twice, and one of an account that isn't there.
pub fn additions_tried()
    ensures balance { IsReason model add.shape add.shape (Node 0 0 ∷ Slot 0 0 ∷ []) }
    ensures no_balance { IsReason model add.shape add.shape (Node 0 0 ∷ []) → ⊥ }
    ensures no_account { IsReason model add.shape add.shape (Slot 0 0 ∷ []) → ⊥ }
    ensures out_of_order { IsReason model add.shape add.shape (Slot 0 0 ∷ Node 0 0 ∷ []) → ⊥ }
    ensures twice { IsReason model add.shape add.shape (Node 0 0 ∷ Node 0 0 ∷ Slot 0 0 ∷ []) → ⊥ }
    ensures not_there { IsReason model add.shape add.shape (Node 0 1 ∷ Slot 0 0 ∷ []) → ⊥ }
{
    metamodels();
    glue();
    reasons_are_spans();
}

/// The rule that deletes a client is in conflict with the rule that opens an account for it. It is
/// in none with a rule that keeps edges of the client: there it can't be applied, since an edge
/// would dangle.
pub fn deletions_tried()
    ensures client { IsReason model drop_client.shape open_account.shape (Node 0 0 ∷ []) }
    ensures dangling { IsReason model drop_client.shape touch.shape (Node 0 0 ∷ []) → ⊥ }
{
    metamodels();
    glue();
    what_reasons_pair();
}

/// The account alone is neither a part of a reason of two additions nor an atom: none of it is
/// deleted.
pub fn parts_tried()
    ensures no_part { IsReasonPart model add.shape add.shape (Node 0 0 ∷ []) → ⊥ }
    ensures no_atom { IsConflictAtom model add.shape add.shape (Node 0 0 ∷ []) → ⊥ }
{}

/// The reason of two additions is no row of what a require part needs: it pairs nothing of one.
pub fn rows_tried()
    ensures { IsRow model Require add.shape add.shape 1 0 (Node 0 0 ∷ Slot 0 0 ∷ []) → ⊥ }
{}

/// The one account of the rule that adds to a balance has one possible partner, or none.
pub fn weights_tried()
    ensures accounts { IsWeight model add.shape add.shape 2 }
{}
