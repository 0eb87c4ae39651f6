//! Names of loops in expressions and targets.

ghost use Rattle.std.specs.Prelude.{◌≡◌, [], fold};
ghost use Rattle.rr_syntax.specs.View.{plain, plain_list};
ghost use Rattle.rr_flat.specs.Faults.{sooner};
ghost use Rattle.rr_loop_rules.specs.Rules.{misused, part_strays, stray, strays, target_strays, targets_strays};
ghost use Rattle.rr_loop_rules.specs.View.{plain_around};

use crate::around::is_around;
use crate::names::LoopNames;
use rr_flat::{FlatFault, note_if};
use rr_syntax::Expr;

/// The first of a fault that was found, if any, and that of a name that stands by itself.
fn note_name(
    found: Option<FlatFault>,
    names: &LoopNames,
    around: &[&str],
    token: u32,
    name: &str,
) -> Option<FlatFault>
    ensures { result ≡ fold sooner found (stray names.now (plain_around around.now) token name.now) }
{
    let bad = names.has(name) && !is_around(around, name);
    note_if(found, bad, FlatFault::BadLoop(token))
}

/// The first of a fault that was found, if any, and that of a name that is assigned or selected from.
fn note_base(
    found: Option<FlatFault>,
    names: &LoopNames,
    token: u32,
    name: &str,
) -> Option<FlatFault>
    ensures { result ≡ fold sooner found (misused names.now token name.now) }
{
    note_if(found, names.has(name), FlatFault::BadLoop(token))
}

/// The first of a fault that was found, if any, and those of the names of an expression inside the loops
/// around it, the innermost last.
#[cycle(straying)]
#[tactic(auto, using(crate::proofs::StrayNodes::stray_nodes))]
pub fn note_strays_inside(
    found: Option<FlatFault>,
    names: &LoopNames,
    around: &[&str],
    expr: &Expr,
) -> Option<FlatFault>
    ensures { result ≡ fold sooner found (strays names.now (plain_around around.now) (plain expr.now)) }
{
    match expr {
        Expr::Name { token, name } => note_name(found, names, around, *token, name),
        Expr::Literal { .. } => found,
        Expr::Bit { token, name, index } => {
            let found = note_base(found, names, *token, name);
            note_strays_inside(found, names, around, index)
        }
        Expr::Part {
            token,
            name,
            left: first,
            right: second,
        }
        | Expr::Indexed {
            token,
            name,
            from: first,
            width: second,
            ..
        } => {
            let found = note_base(found, names, *token, name);
            let found = note_strays_inside(found, names, around, first);
            note_strays_inside(found, names, around, second)
        }
        Expr::Unary { of, .. } | Expr::Cast { of, .. } | Expr::Paren { of } => {
            note_strays_inside(found, names, around, of)
        }
        Expr::Binary { left, right, .. } => {
            let found = note_strays_inside(found, names, around, left);
            note_strays_inside(found, names, around, right)
        }
        Expr::Cond { test, yes, no } => {
            let found = note_strays_inside(found, names, around, test);
            let found = note_strays_inside(found, names, around, yes);
            note_strays_inside(found, names, around, no)
        }
        Expr::Concat { parts } => note_parts_inside(found, names, around, parts),
        Expr::Repeat { count, parts } => {
            let found = note_strays_inside(found, names, around, count);
            note_parts_inside(found, names, around, parts)
        }
    }
}

/// The same of several expressions.
#[cycle(straying)]
pub(crate) fn note_parts_inside(
    found: Option<FlatFault>,
    names: &LoopNames,
    around: &[&str],
    list: &[Expr],
) -> Option<FlatFault>
    ensures { result ≡ fold sooner found (part_strays names.now (plain_around around.now) (plain_list list.now)) }
{
    let mut found = found;
    for expr in list.iter() {
        found = note_strays_inside(found, names, around, expr);
    }
    found
}

/// The first of a fault that was found, if any, and those of a target inside the loops around it.
#[cycle(aiming)]
#[tactic(auto, using(crate::proofs::StrayNodes::target_nodes))]
pub(crate) fn note_target(
    found: Option<FlatFault>,
    names: &LoopNames,
    around: &[&str],
    target: &Expr,
) -> Option<FlatFault>
    ensures { result ≡ fold sooner found (target_strays names.now (plain_around around.now) (plain target.now)) }
{
    match target {
        Expr::Name { token, name } => note_base(found, names, *token, name),
        Expr::Concat { parts } => note_targets(found, names, around, parts),
        Expr::Literal { .. }
        | Expr::Bit { .. }
        | Expr::Part { .. }
        | Expr::Indexed { .. }
        | Expr::Unary { .. }
        | Expr::Binary { .. }
        | Expr::Cond { .. }
        | Expr::Repeat { .. }
        | Expr::Cast { .. }
        | Expr::Paren { .. } => note_strays_inside(found, names, around, target),
    }
}

#[cycle(aiming)]
fn note_targets(
    found: Option<FlatFault>,
    names: &LoopNames,
    around: &[&str],
    targets: &[Expr],
) -> Option<FlatFault>
    ensures { result ≡ fold sooner found (targets_strays names.now (plain_around around.now) (plain_list targets.now)) }
{
    let mut found = found;
    for target in targets.iter() {
        found = note_target(found, names, around, target);
    }
    found
}

/// The first of a fault that was found, if any, and that of a name outside every loop.
#[tactic(auto, unfolding(crate::specs::View::plain_around))]
pub fn note_stray(
    found: Option<FlatFault>,
    names: &LoopNames,
    token: u32,
    name: &str,
) -> Option<FlatFault>
    ensures { result ≡ fold sooner found (stray names.now [] token name.now) }
{
    note_name(found, names, &[], token, name)
}

/// The same of the names of an expression.
#[tactic(auto, unfolding(crate::specs::View::plain_around))]
pub fn note_strays(found: Option<FlatFault>, names: &LoopNames, expr: &Expr) -> Option<FlatFault>
    ensures { result ≡ fold sooner found (strays names.now [] (plain expr.now)) }
{
    note_strays_inside(found, names, &[], expr)
}

/// The same of several expressions.
#[tactic(auto, unfolding(crate::specs::View::plain_around))]
pub fn note_part_strays(
    found: Option<FlatFault>,
    names: &LoopNames,
    list: &[Expr],
) -> Option<FlatFault>
    ensures { result ≡ fold sooner found (part_strays names.now [] (plain_list list.now)) }
{
    note_parts_inside(found, names, &[], list)
}
