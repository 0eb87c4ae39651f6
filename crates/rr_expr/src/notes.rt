//! Constant operands that were evaluated, kept while what they stand in is evaluated.
ghost use Rattle.std.specs.Bool.{OnTrue};
ghost use Rattle.std.specs.Prelude.{◌≡◌, ◌<◌, IfSome};
ghost use Rattle.rr_syntax.specs.View.{plain, plain_list};
ghost use Rattle.rr_expr.specs.Indices.{integer_of};
ghost use Rattle.rr_expr.specs.Notes.{HasRight, Noted, IsRight, integer_in};
ghost use Rattle.rr_expr.specs.Scopes.{Names};

use crate::selects::Index;
use rr_syntax::Expr;

/// How many are kept.
const ROOM: usize = 16;

/// A constant operand and its value.
#[derive(Clone, Copy)]
pub(crate) struct Known<'e> {
    pub(crate) expr: &'e Expr<'e>,
    pub(crate) index: Index,
}

/// The operands that took most work, each counted in operands. A bound is asked for its width and again for its
/// value, so without them a bound within bounds within bounds would cost twice as much at each
/// level; with them the others are together cheaper than any that is kept.
#[derive(Clone, Copy)]
struct Table<'e> {
    kept: [Option<Known<'e>>; ROOM],
    costs: [u64; ROOM],
}

impl<'e> Table<'e> {
    fn new() -> Table<'e>
        ensures { (s : Names) → HasRight s result }
    {
        Table {
            kept: [None; ROOM],
            costs: [0; ROOM],
        }
    }

    /// The value of an operand that is kept.
    fn find(&self, expr: &Expr) -> Option<Index>
        ensures { (s : Names) → HasRight s self.now → IfSome result (λ i. integer_of i ≡ integer_in s (plain expr.now)) }
    {
        let kept = &self.kept[..];
        for note in kept.iter() {
            if let Some(known) = note {
                if same(known.expr, expr) {
                    return Some(known.index);
                }
            }
        }
        None
    }

    /// Keeps an operand that took so much work, in place of the cheapest where that is cheaper.
    fn keep(&mut self, known: Known<'e>, work: u64)
        ensures { (s : Names) → HasRight s self.old → IsRight s known.entry → HasRight s self.new }
    {
        let cheapest = least_at(&self.costs);
        if self.costs[cheapest] < work {
            self.costs[cheapest] = work;
            let kept = &mut self.kept[..];
            kept[cheapest] = Some(known);
        }
    }
}

/// Such a table, made with the first operand that is kept: most expressions have none but literals.
#[derive(Clone, Copy)]
pub(crate) struct Notes<'e> {
    table: Option<Table<'e>>,
    pub(crate) work: u64,
}

impl<'e> Notes<'e> {
    pub(crate) fn new() -> Notes<'e>
        ensures { (s : Names) → Noted s result }
    {
        Notes {
            table: None,
            work: 0,
        }
    }

    /// The value of an operand that is kept.
    pub(crate) fn find(&self, expr: &Expr) -> Option<Index>
        ensures { (s : Names) → Noted s self.now → IfSome result (λ i. integer_of i ≡ integer_in s (plain expr.now)) }
    {
        match &self.table {
            Some(table) => table.find(expr),
            None => None,
        }
    }

    /// Keeps an operand that took so much work.
    pub(crate) fn keep(&mut self, known: Known<'e>, work: u64)
        ensures { (s : Names) → Noted s self.old → IsRight s known.entry → Noted s self.new }
    {
        self.work = self.work.saturating_add(work).saturating_add(1);
        match &mut self.table {
            Some(table) => table.keep(known, work),
            None => {
                let mut table = Table::new();
                table.keep(known, work);
                self.table = Some(table);
            }
        }
    }
}

/// The first place of the least cost.
fn least_at(costs: &[u64; ROOM]) -> usize
    ensures { result < 16 }
{
    let mut least = 0;
    for place in 1..ROOM {
        if costs[place] < costs[least] {
            least = place;
        }
    }
    least
}

fn same_name(a: &str, b: &str) -> bool
    ensures { OnTrue result (a.now ≡ b.now) }
{
    a == b
}

/// Whether two trees are one, token numbers included. It ends at the first leaf that differs.
#[cycle(sames)]
#[tactic(auto, using(crate::proofs::Same::sames))]
fn same(a: &Expr, b: &Expr) -> bool
    ensures { OnTrue result (plain a.now ≡ plain b.now) }
{
    match a {
        Expr::Name { .. } | Expr::Literal { .. } => same_leaf(a, b),
        Expr::Bit { .. } | Expr::Part { .. } => same_select(a, b),
        Expr::Indexed { .. } => same_indexed(a, b),
        Expr::Unary { .. } | Expr::Binary { .. } | Expr::Cond { .. } => same_operation(a, b),
        Expr::Concat { .. } | Expr::Repeat { .. } => same_concat(a, b),
        Expr::Cast { .. } | Expr::Paren { .. } => same_brackets(a, b),
    }
}

/// Whether both are one name or one literal.
#[tactic(auto, using(crate::proofs::Same::sames))]
fn same_leaf(a: &Expr, b: &Expr) -> bool
    ensures { OnTrue result (plain a.now ≡ plain b.now) }
{
    match (a, b) {
        (Expr::Name { token: s, name: a }, Expr::Name { token: t, name: b }) => s == t
            && same_name(a, b),
        (
            Expr::Literal {
                token: s,
                number: a,
            },
            Expr::Literal {
                token: t,
                number: b,
            },
        ) => s == t && a == b,
        _ => false,
    }
}

/// Whether both are one select of a bit or of a part between two bounds.
#[cycle(sames)]
#[tactic(auto, using(crate::proofs::Same::sames))]
fn same_select(a: &Expr, b: &Expr) -> bool
    ensures { OnTrue result (plain a.now ≡ plain b.now) }
{
    match (a, b) {
        (
            Expr::Bit {
                token: s,
                name: a,
                index: i,
            },
            Expr::Bit {
                token: t,
                name: b,
                index: j,
            },
        ) => s == t && same_name(a, b) && same(i, j),
        (
            Expr::Part {
                token: s,
                name: a,
                left: i,
                right: k,
            },
            Expr::Part {
                token: t,
                name: b,
                left: j,
                right: l,
            },
        ) => s == t && same_name(a, b) && same(i, j) && same(k, l),
        _ => false,
    }
}

/// Whether both are one indexed part.
#[cycle(sames)]
#[tactic(auto, using(crate::proofs::Same::sames))]
fn same_indexed(a: &Expr, b: &Expr) -> bool
    ensures { OnTrue result (plain a.now ≡ plain b.now) }
{
    match (a, b) {
        (
            Expr::Indexed {
                token: s,
                name: a,
                from: i,
                width: k,
                up: u,
            },
            Expr::Indexed {
                token: t,
                name: b,
                from: j,
                width: l,
                up: v,
            },
        ) => s == t && same_name(a, b) && u == v && same(i, j) && same(k, l),
        _ => false,
    }
}

/// Whether both are one operator with the same operands.
#[cycle(sames)]
#[tactic(auto, using(crate::proofs::Same::sames))]
fn same_operation(a: &Expr, b: &Expr) -> bool
    ensures { OnTrue result (plain a.now ≡ plain b.now) }
{
    match (a, b) {
        (Expr::Unary { op: s, of: a }, Expr::Unary { op: t, of: b }) => s == t && same(a, b),
        (
            Expr::Binary {
                op: s,
                left: a,
                right: c,
            },
            Expr::Binary {
                op: t,
                left: b,
                right: d,
            },
        ) => s == t && same(a, b) && same(c, d),
        (
            Expr::Cond {
                test: a,
                yes: c,
                no: e,
            },
            Expr::Cond {
                test: b,
                yes: d,
                no: f,
            },
        ) => same(a, b) && same(c, d) && same(e, f),
        _ => false,
    }
}

/// Whether both are one concatenation or one replication.
#[cycle(sames)]
#[tactic(auto, using(crate::proofs::Same::sames))]
fn same_concat(a: &Expr, b: &Expr) -> bool
    ensures { OnTrue result (plain a.now ≡ plain b.now) }
{
    match (a, b) {
        (Expr::Concat { parts: a }, Expr::Concat { parts: b }) => same_parts(a, b),
        (Expr::Repeat { count: m, parts: a }, Expr::Repeat { count: n, parts: b }) => {
            same(m, n) && same_parts(a, b)
        }
        _ => false,
    }
}

/// Whether both are one operand between the same brackets.
#[cycle(sames)]
#[tactic(auto, using(crate::proofs::Same::sames))]
fn same_brackets(a: &Expr, b: &Expr) -> bool
    ensures { OnTrue result (plain a.now ≡ plain b.now) }
{
    match (a, b) {
        (Expr::Cast { signed: s, of: a }, Expr::Cast { signed: t, of: b }) => s == t && same(a, b),
        (Expr::Paren { of: a }, Expr::Paren { of: b }) => same(a, b),
        _ => false,
    }
}

#[cycle(sames)]
#[tactic(auto, using(crate::proofs::Same::sames))]
fn same_parts(a: &[Expr], b: &[Expr]) -> bool
    ensures { OnTrue result (plain_list a.now ≡ plain_list b.now) }
{
    if a.len() != b.len() {
        return false;
    }
    for (place, part) in a.iter().enumerate() {
        if !same(part, &b[place]) {
            return false;
        }
    }
    true
}
