//! Whether two processes read alike: the same node, the same first values and the same statements, by number.

ghost use Rattle.std.specs.Prelude.{◌≡◌, ◌↔◌, IsTrue};
ghost use Rattle.kahn_net.specs.Syntax.{Nothing, block_of, body_of, code_of, links_of, then_of, tree_of};

use crate::program::{Expr, Link, Process, Statement};

#[cycle(same)]
fn is_same_expr(a: &Expr, b: &Expr) -> bool
    ensures { IsTrue result ↔ (tree_of a.now ≡ tree_of b.now) }
{
    match a {
        Expr::Literal(m) => match b {
            Expr::Literal(n) => m == n,
            _ => false,
        },
        Expr::Variable(x) => match b {
            Expr::Variable(y) => x == y,
            _ => false,
        },
        Expr::Negate(value) => match b {
            Expr::Negate(other) => is_same_expr(value, other),
            _ => false,
        },
        Expr::Chain { first, links } => match b {
            Expr::Chain {
                first: other,
                links: others,
            } => is_same_expr(first, other) && is_same_links(links, others),
            _ => false,
        },
    }
}

#[cycle(same)]
fn is_same_links(a: &[Link], b: &[Link]) -> bool
    ensures { IsTrue result ↔ (links_of a.now ≡ links_of b.now) }
{
    if a.len() != b.len() {
        return false;
    }
    for (i, link) in a.iter().enumerate() {
        if link.operator != b[i].operator || !is_same_expr(&link.value, &b[i].value) {
            return false;
        }
    }
    true
}

#[cycle(same_statements)]
fn is_same_statement(a: &Statement, b: &Statement) -> bool
    ensures { IsTrue result ↔ (then_of a.now Nothing ≡ then_of b.now Nothing) }
{
    match a {
        Statement::Get { variable, channel } => match b {
            Statement::Get {
                variable: x,
                channel: c,
            } => variable == x && channel == c,
            _ => false,
        },
        Statement::Assign { variable, value } => match b {
            Statement::Assign {
                variable: x,
                value: e,
            } => variable == x && is_same_expr(value, e),
            _ => false,
        },
        Statement::Put { value, channel } => match b {
            Statement::Put {
                value: e,
                channel: c,
            } => is_same_expr(value, e) && channel == c,
            _ => false,
        },
        Statement::Stop => match b {
            Statement::Stop => true,
            _ => false,
        },
        Statement::If {
            test,
            first,
            second,
        } => match b {
            Statement::If {
                test: e,
                first: f,
                second: g,
            } => {
                if !is_same_expr(test, e) {
                    return false;
                }
                if !is_same_statements(first, f) {
                    return false;
                }
                is_same_statements(second, g)
            }
            _ => false,
        },
        Statement::Repeat { times, body } => match b {
            Statement::Repeat {
                times: n,
                body: other,
            } => times == n && is_same_statements(body, other),
            _ => false,
        },
    }
}

#[cycle(same_statements)]
fn is_same_statements(a: &[Statement], b: &[Statement]) -> bool
    ensures { IsTrue result ↔ (block_of a.now ≡ block_of b.now) }
{
    if a.len() != b.len() {
        return false;
    }
    for (i, statement) in a.iter().enumerate() {
        if !is_same_statement(statement, &b[i]) {
            return false;
        }
    }
    true
}

fn is_same_body(a: &Option<Vec<Statement>>, b: &Option<Vec<Statement>>) -> bool
    ensures { IsTrue result ↔ (body_of a.now ≡ body_of b.now) }
{
    match a {
        None => b.is_none(),
        Some(body) => match b {
            None => false,
            Some(other) => is_same_statements(body, other),
        },
    }
}

/// Whether the values of variables are the same.
pub fn is_same_values(a: &[i64], b: &[i64]) -> bool
    ensures { IsTrue result ↔ (a.now ≡ b.now) }
{
    a == b
}

/// Whether the passes that remain are the same.
pub(crate) fn is_same_passes(a: &[u16], b: &[u16]) -> bool
    ensures { IsTrue result ↔ (a.now ≡ b.now) }
{
    a == b
}

/// Whether two processes read alike. Nothing is allocated.
pub fn is_same_process(a: &Process, b: &Process) -> bool
    // By node, first values, prelude and body, also within blocks and repetitions; names don't count.
    ensures { IsTrue result ↔ (code_of a.now ≡ code_of b.now) }
{
    a.node == b.node
        && is_same_values(&a.variables, &b.variables)
        && is_same_statements(&a.prelude, &b.prelude)
        && is_same_body(&a.body, &b.body)
}
