//! What checked expressions are worth.

ghost use Rattle.std.specs.Prelude.{◌≡◌, ◌≤◌, Ok, Some};
ghost use Rattle.hs_expr.specs.declared.expr.Expr.{Expr};
ghost use Rattle.hs_expr.specs.declared.expr.TheConstants.{MAX_NESTING};
ghost use Rattle.hs_expr.specs.declared.value.Kind.{Kind};
ghost use Rattle.hs_expr.specs.Evaluation as evaluation;
ghost use Rattle.hs_expr.specs.Evaluation.{kind_in, nesting, value_of};
ghost use Rattle.hs_expr.specs.Trees.{Tree};
ghost use Rattle.hs_eval.specs.declared.checked.Checked.{Checked};
ghost use Rattle.hs_eval.specs.Checking.{Names, check_tree};
ghost use Rattle.hs_eval.specs.Results.{checked_of, ok_map};
ghost use Rattle.hs_eval.specs.Naming.{Agrees, value_by_names};

/// A checked expression is worth what the expression by names is, wherever it is read.
pub fn checked_is_worth_the_same()
    ensures { (names : Names) (env : evaluation.Env) (tree : Tree) (r : Expr × Kind)
        → check_tree names tree ≡ Ok r
        → value_of env r.0 ≡ value_by_names names env tree }
{}

/// A checked expression has the kind that it is said to have, where the numbers have the kinds that
/// the names are said to have.
pub fn checked_has_its_kind()
    ensures { (names : Names) (scope : evaluation.Scope) → Agrees names scope
        → (tree : Tree) (r : Expr × Kind) → check_tree names tree ≡ Ok r
        → kind_in scope r.0 ≡ Some r.1 }
{}

/// An expression that is given to the caller is the checked one, of the kind that is given with it,
/// and nests at most 32 deep.
pub fn kept_expressions_are_checked()
    ensures { (names : Names) (tree : Tree) (given : Checked) (e : Expr)
        → ok_map checked_of (check_tree names tree) ≡ Ok given → given.expr ≡ Some e
        → (check_tree names tree ≡ Ok (e, given.kind)) × (nesting e ≤ MAX_NESTING) }
{}
