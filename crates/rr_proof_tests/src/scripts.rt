//! Propagation on small formulas, by scripts: what is done to a watch, and what it tells then.
ghost use Rattle.std.specs.Prelude.{◌≡◌, ◌+◌, ◌<◌, All};

use crate::helpers::{EIGHT, clause, formula, lit, none_fails, numbers_of};
use crate::watch::{add, back, begin, decide};
use rr_cnf::{Clause, Formula, Lit};
use rr_watch::{Propagated, Watch};
use std::alloc::Global;
use std::test::Fail;

/// Scripts by their names, each with so many variables, clauses as in DIMACS, and steps. A step does
/// something (`add` a clause, `decide` a literal, go `back` to a level, propagate till it is `quiet`, or to
/// a `conflict` in one of these clauses, `learn` a clause under two decisions), or says what the watch
/// tells: the value of a literal (`true`, `false`, `open`), its `level` or `reason` (0 is none), the
/// `depth`, the `trail`, how many literals a `clause` has or that there is `none`, and in how many lists of
/// `watchers` of the literals of the variables from one to another clauses stand.
const SCRIPTS: [(&str, u64, &str, &str); 11] = [
    (
        "units and conflicts",
        2,
        "1 2 0 1 -2 0",
        "quiet; decide -1; conflict 1 2",
    ),
    (
        "a forced literal",
        2,
        "1 2 0",
        "decide -1; quiet; true 2; false 1; trail -1 2; reason 2 1; reason -1 0; level 2 1; depth 1; back 0; open 2",
    ),
    (
        "short clauses",
        3,
        "2 2 0 -2 3 3 0 1 -1 0",
        "quiet; trail 2 3; level 3 0; false -3; decide 1; quiet",
    ),
    (
        "an empty clause",
        3,
        "1 0 0",
        "conflict 2; clause 2 0; none 0; none 3",
    ),
    (
        "back to each level",
        6,
        "-1 2 0 -3 4 0 -1 -5 6 0",
        "decide 1; quiet; decide 3; quiet; decide 5; quiet; trail 1 2 3 4 5 6; back 2; trail 1 2 3 4; back 1; trail 1 2; decide 5; quiet; level 6 2; back 0; trail",
    ),
    (
        "what a decision without propagation hid, seen again after the way back",
        3,
        "-1 3 0",
        "decide 1; decide 2; quiet; level 3 2; back 1; open 3; quiet; level 3 1",
    ),
    (
        "the newest clause's literal first, before the trail is seen again",
        3,
        "",
        "add 1; quiet; add -1 2; add -1 3; quiet; trail 1 3 2",
    ),
    (
        "a decision between a clause and propagation, taken back",
        3,
        "",
        "add 1; quiet; add -1 2; decide 3; quiet; true 2; level 2 1; back 0; open 2; quiet; true 2; level 2 0",
    ),
    (
        "a learned clause forces its literal, is seen again after the way back, and forces another one",
        3,
        "",
        "learn; quiet; reason 3 1; level 3 2; back 1; quiet; open 3; decide -3; quiet; false 2",
    ),
    (
        "two lists for each of eight clauses",
        3,
        EIGHT,
        "watchers 1 3 16; decide 1; decide 2; conflict 7 8; watchers 1 3 16; back 0; quiet; watchers 1 3 16",
    ),
    (
        "two lists for each clause of two different literals, by its variables",
        11,
        "1 2 0 3 4 5 0 6 7 8 9 0 10 -10 0 11 11 0",
        "watchers 1 2 2; watchers 3 5 2; watchers 6 9 2; watchers 10 10 2; watchers 11 11 0; decide -6; decide -7; quiet; watchers 6 9 2; decide -3; decide -4; decide -5; conflict 2; watchers 1 2 2; watchers 3 5 2; watchers 6 9 2; watchers 10 10 2; watchers 11 11 0; back 0; quiet; watchers 1 2 2; watchers 3 5 2; watchers 6 9 2; watchers 10 10 2; watchers 11 11 0",
    ),
];

/// The number at this place, or 0.
fn at(numbers: &[i32], place: usize) -> i32 {
    numbers.get(place).copied().unwrap_or(0)
}

/// Whether propagation finds one of these clauses false, and does so again.
fn conflicts(watch: &mut Watch, ids: &[i32]) -> bool
    ensures { watch.new.clauses ≡ watch.old.clauses }
{
    let answer = watch.propagate();
    let again = watch.propagate();
    match answer {
        Propagated::Quiet => false,
        Propagated::Conflict(id) => {
            again == answer && ids.iter().any(|one| u64::from(one.unsigned_abs()) == id)
        }
    }
}

/// In how many lists of literals of these variables clauses stand.
fn watchers(watch: &Watch, first: u64, last: u64) -> u64 {
    let mut count = 0u64;
    for var in first.max(1)..=last.min(watch.vars()).min(100) {
        let one = Lit::new(var, false);
        let both = watch
            .watchers(one)
            .saturating_add(watch.watchers(one.negated()));
        count = count.saturating_add(both as u64);
    }
    count
}

/// Whether these are the literals of the trail.
fn is_trail(watch: &Watch, numbers: &[i32]) -> bool {
    let trail = watch.trail();
    for (one, number) in trail.iter().zip(numbers) {
        if *one != lit(*number) {
            return false;
        }
    }
    trail.len() == numbers.len()
}

/// Whether a watch tells this.
fn tells(watch: &Watch, word: &str, numbers: &[i32]) -> bool {
    let one = lit(at(numbers, 0));
    let id = u64::from(at(numbers, 0).unsigned_abs());
    let second = u64::from(at(numbers, 1).unsigned_abs());
    let third = u64::from(at(numbers, 2).unsigned_abs());
    if one.var() > watch.vars() {
        return false;
    }
    match word {
        "true" => watch.value(one) == Some(true),
        "false" => watch.value(one) == Some(false),
        "open" => watch.value(one).is_none(),
        "level" => u64::from(watch.level(one)) == second,
        "reason" => watch.reason(one).unwrap_or(0) == second,
        "depth" => u64::from(watch.depth()) == id,
        "trail" => is_trail(watch, numbers),
        "clause" => watch.clause(id).map(|clause| clause.len() as u64) == Some(second),
        "none" => watch.clause(id).is_none(),
        "watchers" => watchers(watch, id, second) == third,
        _ => false,
    }
}

/// Adds a clause of these literals, if nothing is decided.
fn add_lits(alloc: Global, watch: &mut Watch, id: u64, numbers: &[i32]) -> Result<bool, Fail>
    requires { All (λ n. n.id < id) watch.old.clauses }
    ensures { All (λ n. n.id < id + 1) watch.new.clauses }
{
    let clause = clause(alloc, numbers)?;
    add(watch, id, &clause)
}

/// Decides the first two of three variables, where nothing is true yet, and adds the clause that their
/// negations make with the third, as a search does that learned it.
fn learn(alloc: Global, watch: &mut Watch, id: u64) -> Result<bool, Fail>
    requires { All (λ n. n.id < id) watch.old.clauses }
    ensures { All (λ n. n.id < id + 1) watch.new.clauses }
{
    if watch.vars() < 3 || watch.depth() != 0 || !watch.trail().is_empty() {
        return Ok(false);
    }
    let one = Lit::new(1, false);
    let two = Lit::new(2, false);
    let lits = [one.negated(), two.negated(), Lit::new(3, false)];
    let learned = Clause::from_lits(alloc, &lits)?;
    watch.decide(one);
    watch.decide(two);
    watch.add(id, &learned)?;
    Ok(true)
}

/// Takes a step, with an id for a clause, and tells whether it goes as it says.
fn takes(
    alloc: Global,
    watch: &mut Watch,
    id: u64,
    word: &str,
    numbers: &[i32],
) -> Result<bool, Fail>
    requires { All (λ n. n.id < id) watch.old.clauses }
    ensures { All (λ n. n.id < id + 1) watch.new.clauses }
{
    match word {
        "add" => add_lits(alloc, watch, id, numbers),
        "learn" => learn(alloc, watch, id),
        "decide" => Ok(decide(watch, lit(at(numbers, 0)))),
        "back" => Ok(back(watch, at(numbers, 0).unsigned_abs())),
        "quiet" => Ok(watch.propagate() == Propagated::Quiet),
        "conflict" => Ok(conflicts(watch, numbers)),
        _ => Ok(tells(watch, word, numbers)),
    }
}

/// The same of the text of a step.
fn goes(alloc: Global, watch: &mut Watch, id: u64, step: &str) -> Result<bool, Fail>
    requires { All (λ n. n.id < id) watch.old.clauses }
    ensures { All (λ n. n.id < id + 1) watch.new.clauses }
{
    let (word, rest) = step.split_once(' ').unwrap_or((step, ""));
    let numbers = numbers_of(alloc, rest)?;
    takes(alloc, watch, id, word, numbers.as_slice())
}

/// The first step that does not go as it says, with ids from the first one on.
fn follow<'a>(
    alloc: Global,
    watch: &mut Watch,
    first: u64,
    script: &'a str,
) -> Result<Option<&'a str>, Fail>
    requires { All (λ n. n.id < first) watch.old.clauses }
{
    let mut id = first;
    for step in script.split("; ") {
        if id > 1_000 || !goes(alloc, watch, id, step)? {
            return Ok(Some(step));
        }
        id += 1;
    }
    Ok(None)
}

/// The same on a watch that holds these clauses.
fn first_astray<'a>(
    alloc: Global,
    formula: &Formula,
    script: &'a str,
) -> Result<Option<&'a str>, Fail> {
    if formula.len() > 60 {
        return Ok(Some(script));
    }
    let mut watch = begin(alloc, formula)?;
    follow(alloc, &mut watch, formula.len() + 1, script)
}

/// The name of the first script that goes astray, and its step.
fn first_failing<'a>(
    alloc: Global,
    scripts: &'a [(&'a str, u64, &'a str, &'a str)],
) -> Result<Option<(&'a str, &'a str)>, Fail> {
    for (name, vars, clauses, script) in scripts {
        let formula = formula(alloc, *vars, clauses)?;
        if let Some(step) = first_astray(alloc, &formula, script)? {
            return Ok(Some((*name, step)));
        }
    }
    Ok(None)
}

#[test]
fn follows_scripts(rt: HostRuntime) -> Result<(), Fail> {
    none_fails(first_failing(rt.alloc(), &SCRIPTS)?)
}
