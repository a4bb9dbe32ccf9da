//! Expressions and variables.

ghost use Rattle.std.specs.Prelude.{◌≡◌, pos, slice_set};
ghost use Rattle.std.specs.Ordering.{int_eq};
ghost use Rattle.kahn_net.specs.Common.{tree_of, value_of};
ghost use Rattle.kahn_net.specs.Statements.{apply, one_if_so};

use kahn_net::{Expr, Operator};

/// 1 where it holds, else 0.
fn one_if_so(holds: bool) -> i64
    ensures { result ≡ one_if_so holds }
{
    if holds { 1 } else { 0 }
}

/// How often the right value goes into the left one, toward zero; 0 where it is 0.
fn quotient(left: i64, right: i64) -> i64
    ensures { result ≡ apply Operator.Divide left right }
{
    if right == 0 {
        return 0;
    }
    left.wrapping_div(right)
}

/// What a quotient leaves; 0 where the right value is 0.
fn remainder(left: i64, right: i64) -> i64
    ensures { result ≡ apply Operator.Remainder left right }
{
    if right == 0 {
        return 0;
    }
    left.wrapping_rem(right)
}

/// The value of an operator on two values.
pub fn operate(operator: Operator, left: i64, right: i64) -> i64
    ensures { result ≡ apply operator left right }
{
    match operator {
        Operator::Add => left.wrapping_add(right),
        Operator::Subtract => left.wrapping_sub(right),
        Operator::Multiply => left.wrapping_mul(right),
        Operator::Divide => quotient(left, right),
        Operator::Remainder => remainder(left, right),
        Operator::Equal => one_if_so(left == right),
        Operator::NotEqual => one_if_so(left != right),
        Operator::Less => one_if_so(left < right),
        Operator::LessOrEqual => one_if_so(left <= right),
        Operator::Greater => one_if_so(left > right),
        Operator::GreaterOrEqual => one_if_so(left >= right),
    }
}

/// The value of an expression; a variable that isn't there counts 0.
pub fn value(expr: &Expr, variables: &[i64]) -> i64
    ensures { result ≡ value_of (tree_of expr.now) variables.now }
{
    match expr {
        Expr::Literal(number) => *number,
        Expr::Variable(variable) => variables.get(*variable).copied().unwrap_or(0),
        Expr::Negate(negated) => value(negated, variables).wrapping_neg(),
        Expr::Chain { first, links } => {
            let mut total = value(first, variables);
            for link in links {
                total = operate(link.operator, total, value(&link.value, variables));
            }
            total
        }
    }
}

/// Whether the value of an expression is 0, so that an `if` on it takes its second block.
pub fn is_zero(expr: &Expr, variables: &[i64]) -> bool
    ensures { result ≡ int_eq (value_of (tree_of expr.now) variables.now) (pos 0) }
{
    value(expr, variables) == 0
}

/// Writes a variable, if it is there.
pub fn set_variable(variables: &mut [i64], variable: usize, value: i64)
    ensures { variables.new ≡ slice_set variables.old variable value }
{
    if variable < variables.len() {
        variables[variable] = value;
    }
}
