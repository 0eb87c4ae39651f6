//! Texts and calls with ample memory.
use rr_cnf::{Clause, Formula, Lit, push_literal, write_dimacs};
use std::alloc::Global;
use std::test::Fail;

/// The literal that a signed number of DIMACS names.
fn lit(number: i32) -> Lit {
    Lit::new(u64::from(number.unsigned_abs()).max(1), number < 0)
}

fn push(alloc: Global, formula: &mut Formula, lits: &[Lit]) -> Result<(), Fail> {
    let vars = formula.vars();
    if lits.iter().all(|lit| lit.var() <= vars) {
        formula.push(Clause::from_lits(alloc, lits)?)?;
    }
    Ok(())
}

fn shared<T: Send + Sync>(_value: &T) -> bool {
    true
}

/// Formulas by their variables and clauses, with their texts.
const TEXTS: [(u64, &[&[i32]], &str); 3] = [
    (0, &[&[]], "p cnf 0 1\n0\n"),
    (
        3,
        &[&[-3, 2], &[-3, 1], &[3, -2, -1], &[3]],
        "p cnf 3 4\n-3 2 0\n-3 1 0\n3 -2 -1 0\n3 0\n",
    ),
    (7, &[], "p cnf 7 0\n"),
];

/// Whether the formula of these clauses has this text.
fn has_text(alloc: Global, vars: u64, clauses: &[&[i32]], text: &str) -> Result<bool, Fail> {
    let mut formula = Formula::new(alloc, vars);
    formula.reserve(clauses.len())?;
    for numbers in clauses {
        let mut lits = Vec::new(alloc);
        for number in *numbers {
            lits.push(lit(*number))?;
        }
        push(alloc, &mut formula, lits.as_slice())?;
    }
    Ok(write_dimacs(alloc, &formula)?.as_slice() == text.as_bytes())
}

#[test]
fn writes_the_texts(rt: HostRuntime) -> Result<(), Fail> {
    let alloc = rt.alloc();
    for (vars, clauses, text) in TEXTS.iter() {
        assert!(rt; has_text(alloc, *vars, clauses, text)?, "{text}");
    }
    Ok(())
}

#[test]
fn writes_a_literal(rt: HostRuntime) -> Result<(), Fail> {
    let mut text = Vec::new(rt.alloc());
    push_literal(&mut text, lit(-12))?;
    assert!(rt; text.as_slice() == b"-12 ".as_slice());
    assert!(rt; lit(-12).code() == 25);
    Ok(())
}

#[test]
fn writes_the_greatest_variable(rt: HostRuntime) -> Result<(), Fail> {
    let alloc = rt.alloc();
    let most = 1u64 << 62;
    let mut formula = Formula::new(alloc, most);
    let lits = [Lit::new(most, true), Lit::new(1, false), Lit::new(1, false)];
    push(alloc, &mut formula, &lits)?;
    let text = write_dimacs(alloc, &formula)?;
    let wanted = b"p cnf 4611686018427387904 1\n-4611686018427387904 1 1 0\n";
    assert!(rt; text.as_slice() == wanted.as_slice());
    Ok(())
}

/// Whether the clause of this number has these literals, or is not there.
fn has_lits(formula: &Formula, id: u64, wanted: Option<&[Lit]>) -> bool {
    formula.clause(id).map(|clause| clause.lits()) == wanted
}

#[test]
fn keeps_clauses(rt: HostRuntime) -> Result<(), Fail> {
    let alloc = rt.alloc();
    let five = [lit(1), lit(-2), lit(3), lit(-4), lit(5)];
    let clause = Clause::from_lits(alloc, &five)?;
    assert!(rt; clause.lits() == five.as_slice());
    let mut formula = Formula::new(alloc, 5);
    push(alloc, &mut formula, &five)?;
    push(alloc, &mut formula, &[])?;
    assert!(rt; formula.len() == 2 && formula.vars() == 5);
    assert!(rt; has_lits(&formula, 1, Some(&five)) && has_lits(&formula, 2, Some(&[])));
    assert!(rt;
        has_lits(&formula, 0, None) && has_lits(&formula, 3, None),
        "out of range"
    );
    assert!(rt; shared(&formula) && shared(&clause), "shared");
    Ok(())
}

#[test]
fn literals(rt: HostRuntime) {
    let (one, not_one) = (lit(1), lit(-1));
    let found = [one.negated(), not_one.negated(), Lit::default()];
    assert!(rt; found == [not_one, one, one]);
    assert!(rt; not_one.is_negative() && !one.is_negative(), "signs");
    assert!(rt; Lit::new(1 << 62, true).var() == 1 << 62);
    assert!(rt; one < not_one && not_one < lit(2), "order");
}
