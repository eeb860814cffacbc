//! The value of expressions, and when they have none.

ghost use Rattle.std.specs.Prelude.{◌≡◌, ℕ, Some, None};
ghost use Rattle.std.specs.Option.{option_and_then};
ghost use Rattle.hs_expr.specs.declared.expr.Expr.{Expr};
ghost use Rattle.hs_expr.specs.declared.expr.Expr.TheVariants as expr;
ghost use Rattle.hs_expr.specs.declared.expr.Sign.{Sign};
ghost use Rattle.hs_expr.specs.declared.expr.SlotRead.{SlotRead};
ghost use Rattle.hs_expr.specs.declared.value.Kind.{Kind};
ghost use Rattle.hs_expr.specs.declared.value.Value.{Value};
ghost use Rattle.hs_expr.specs.Evaluation.{Env, IsComplete, Overflows, Scope, binary_value, kind_in, kind_of, not_value, minus_value, value_of};

/// The value of an expression, form by form. An expression with an operand
/// without a value has none.
pub fn values_by_form()
    ensures literal { (env : Env) (v : Value) → value_of env (expr.Literal v) ≡ Some v }
    ensures slot { (env : Env) (read : SlotRead)
        → value_of env (expr.Slot read) ≡ env.slot read.node read.attribute }
    ensures parameter { (env : Env) (n : ℕ) → value_of env (expr.Param n) ≡ env.param n }
    ensures negation { (env : Env) (a : Expr)
        → value_of env (expr.Not a) ≡ option_and_then not_value (value_of env a) }
    ensures minus { (env : Env) (a : Expr)
        → value_of env (expr.Minus a) ≡ option_and_then minus_value (value_of env a) }
    ensures binary { (env : Env) (sign : Sign) (a b : Expr) → value_of env (expr.Binary sign a b)
        ≡ option_and_then (λ x. option_and_then (binary_value sign x) (value_of env b))
        (value_of env a) }
{}

/// Where slots and parameters have the kinds that they are said to have, so has each checked
/// expression that has a value.
pub fn values_have_their_kinds()
    ensures { (env : Env) (scope : Scope)
        → ((n a : ℕ) (k : Kind) (v : Value) → scope.slot n a ≡ Some k → env.slot n a ≡ Some v
        → kind_of v ≡ k)
        → ((n : ℕ) (k : Kind) (v : Value) → scope.param n ≡ Some k → env.param n ≡ Some v
        → kind_of v ≡ k)
        → (e : Expr) (k : Kind) (v : Value) → kind_in scope e ≡ Some k → value_of env e ≡ Some v
        → kind_of v ≡ k }
{}

/// A checked expression whose slots and parameters have their values has none itself exactly where
/// a sum, a difference, a product or a negation somewhere in it leaves 64 bits.
pub fn no_value_means_overflow()
    ensures leaves { (env : Env) (scope : Scope) → IsComplete env scope
        → (e : Expr) (k : Kind) → kind_in scope e ≡ Some k → value_of env e ≡ None
        → Overflows env e }
    ensures only { (env : Env) (e : Expr) → Overflows env e → value_of env e ≡ None }
{}
