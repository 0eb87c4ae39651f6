//! The command `check`, run over shelves in memory.
use crate::repairs::{list, words_of};
use crate::shelves::{NO_FAILS, command};
use rr_edge::{MemoryShelf, MemorySink};
use rr_top::run;
use std::process::Abort;
use std::thread::Threads;

#[derive(Clone, Copy)]
struct Case<'a> {
    words: &'static str,
    circuit: &'a str,
    proof: &'a str,
    shelf_fails: u64,
    out_fails: u64,
    notes_fails: u64,
    room: u64,
    status: u8,
    out: &'a str,
    notes: &'a str,
}

const NONE: u64 = 99;

/// A circuit with an output and its negation, and a proof that they are not both true.
const FIRST: Case<'static> = Case {
    words: "rtl_repair check c.aag c.lrat",
    circuit: "aag 1 1 0 2 0\n2\n2\n3\n",
    proof: "3 0 1 2 0\n",
    shelf_fails: NONE,
    out_fails: NONE,
    notes_fails: NONE,
    room: 1000,
    status: 0,
    out: "accepted\n",
    notes: "",
};

/// A fault or an absent name.
const FAULT: Case<'static> = Case {
    status: 4,
    out: "",
    ..FIRST
};

fn run_case<R: Abort + AllocGlobal + Threads + Sync>(rt: &R, case: &Case<'_>) {
    let alloc = rt.alloc();
    let words = words_of(rt, case.words);
    let mut shelf = MemoryShelf::new(alloc, list(rt, case.shelf_fails));
    shelf
        .place("c.aag", case.circuit.as_bytes())
        .expect(rt, "room");
    shelf
        .place("c.lrat", case.proof.as_bytes())
        .expect(rt, "room");
    let mut out = MemorySink::new(alloc, case.room, list(rt, case.out_fails)).expect(rt, "room");
    let mut notes = MemorySink::new(alloc, 1000, list(rt, case.notes_fails)).expect(rt, "room");
    let status = run(rt, alloc, &words, &mut shelf, &mut out, &mut notes);
    assert!(rt; status == case.status, "status of {}", case.proof);
    assert!(rt;
        out.written() == case.out.as_bytes(),
        "out of {}",
        case.proof
    );
    assert!(rt;
        notes.written() == case.notes.as_bytes(),
        "notes of {}",
        case.proof
    );
    assert!(rt;
        shelf.held("c.aag") == Some(case.circuit.as_bytes())
            && shelf.held("c.lrat") == Some(case.proof.as_bytes())
    );
}

/// A proof with its verdict.
fn finds<'x, R: Abort + AllocGlobal + Threads + Sync>(
    rt: &R,
    proof: &'x str,
    status: u8,
    out: &'x str,
) {
    run_case(
        rt,
        &Case {
            proof,
            status,
            out,
            ..FIRST
        },
    );
}

/// A circuit and a proof that are refused.
fn refuses<'x, R: Abort + AllocGlobal + Threads + Sync>(
    rt: &R,
    circuit: &'x str,
    proof: &'x str,
    notes: &'x str,
) {
    run_case(
        rt,
        &Case {
            circuit,
            proof,
            status: 3,
            out: "",
            notes,
            ..FIRST
        },
    );
}

/// A proof that is refused at its first line.
fn no_proof<R: Abort + AllocGlobal + Threads + Sync>(rt: &R, proof: &str) {
    refuses(rt, FIRST.circuit, proof, "refused 35 BadProof line 1\n");
}

#[test]
fn proofs_are_judged(rt: HostRuntime) {
    finds(&rt, "3 0 1 2 0\n", 0, "accepted\n");
    finds(&rt, "3 d 1 0\n4 0 1 2 0\n", 0, "accepted\n");
    finds(
        &rt,
        "3 1 0 1 0\n4 0 1 0\n5 0 2 0\n",
        1,
        "refused addition 2\n",
    );
    finds(&rt, "3 0 9 0\n", 1, "refused addition 1\n");
    finds(&rt, "3 0 3 0\n", 1, "refused addition 1\n");
    finds(&rt, "3 1 0 1 0\n", 1, "no empty clause\n");
    finds(&rt, "", 1, "no empty clause\n");
}

#[test]
fn outputs_that_are_false_or_true(rt: HostRuntime) {
    let case = Case {
        circuit: "aag 0 0 0 1 0\n0\n",
        proof: "2 0 1 0\n",
        ..FIRST
    };
    run_case(&rt, &case);
    let case = Case {
        circuit: "aag 0 0 0 1 0\n1\n",
        proof: "1 0 1 0\n",
        status: 1,
        out: "refused addition 1\n",
        ..FIRST
    };
    run_case(&rt, &case);
}

#[test]
fn proofs_are_refused(rt: HostRuntime) {
    let whole = FIRST.proof;
    for len in 1..whole.len() {
        no_proof(&rt, whole.get(..len).expect(&rt, "prefix"));
    }
    no_proof(&rt, "2 0 1 0\n");
    no_proof(&rt, "3 2 0 1 0\n");
    no_proof(&rt, "3 1 -1 0 1 0\n");
    let circuit = FIRST.circuit;
    refuses(&rt, circuit, "3 0 -1 2 0\n", "refused 36 RatLine line 1\n");
    refuses(
        &rt,
        circuit,
        "3 0 9 0\n4 0 -1 0\n4 x\n",
        "refused 36 RatLine line 2\n",
    );
}

#[test]
fn circuits_are_refused(rt: HostRuntime) {
    let proof = "x";
    refuses(
        &rt,
        "aag 1 1 0 1 0\n2\n",
        proof,
        "refused 34 BadCircuit line 3\n",
    );
    refuses(
        &rt,
        "aag 1 0 0 0 1\n2 2 2\n",
        proof,
        "refused 34 BadCircuit line 2\n",
    );
    refuses(
        &rt,
        "aag 9 1 0 0 0\n",
        proof,
        "refused 34 BadCircuit line 1\n",
    );
    refuses(
        &rt,
        "aag 1152921504606846976 1152921504606846976 0 0 0\n",
        proof,
        "refused 34 BadCircuit line 2\n",
    );
    refuses(&rt, "", proof, "refused 34 BadCircuit line 1\n");
}

#[test]
fn certificates_are_absent(rt: HostRuntime) {
    let circuit = "aag 9\n";
    run_case(
        &rt,
        &Case {
            words: "rtl_repair check none.aag c.lrat",
            notes: "absent none.aag\n",
            ..FAULT
        },
    );
    run_case(
        &rt,
        &Case {
            words: "rtl_repair check c.aag none.lrat",
            circuit,
            notes: "absent none.lrat\n",
            ..FAULT
        },
    );
    run_case(
        &rt,
        &Case {
            words: "rtl_repair check none.aag none.lrat",
            notes: "absent none.aag\n",
            ..FAULT
        },
    );
}

#[test]
fn reads_of_certificates_fail(rt: HostRuntime) {
    run_case(
        &rt,
        &Case {
            shelf_fails: 0,
            notes: "fault read c.aag\n",
            ..FAULT
        },
    );
    run_case(
        &rt,
        &Case {
            shelf_fails: 1,
            notes: "fault read c.lrat\n",
            ..FAULT
        },
    );
}

#[test]
fn puts_of_verdicts_fail(rt: HostRuntime) {
    run_case(
        &rt,
        &Case {
            out_fails: 0,
            notes: "fault out\n",
            ..FAULT
        },
    );
    run_case(
        &rt,
        &Case {
            room: 3,
            out: "acc",
            notes: "fault out\n",
            ..FAULT
        },
    );
    // Nothing is put on the notes where the verdict is printed.
    run_case(
        &rt,
        &Case {
            notes_fails: 0,
            ..FIRST
        },
    );
    run_case(
        &rt,
        &Case {
            proof: "x",
            notes_fails: 0,
            ..FAULT
        },
    );
}

/// A proof of 40 units, which pass but for that with this id, and the empty clause.
fn long_proof<R: Abort + AllocGlobal>(rt: &R, bad: u64) -> String {
    let alloc = rt.alloc();
    let mut text = String::new(alloc);
    for id in 3..43u64 {
        let hint = if id == bad { 2 } else { 1 };
        let line = format!(in alloc; "{id} 1 0 {hint} 0\n").expect(rt, "room");
        text.push_str(&line).expect(rt, "room");
    }
    text.push_str("43 0 1 2 0\n").expect(rt, "room");
    text
}

#[test]
fn bad_additions_in_each_part(rt: HostRuntime) {
    finds(&rt, &long_proof(&rt, 0), 0, "accepted\n");
    finds(&rt, &long_proof(&rt, 7), 1, "refused addition 5\n");
    finds(&rt, &long_proof(&rt, 17), 1, "refused addition 15\n");
    finds(&rt, &long_proof(&rt, 27), 1, "refused addition 25\n");
    finds(&rt, &long_proof(&rt, 37), 1, "refused addition 35\n");
}

/// A check that was refused one allocation ends with status 5 and prints nothing, or with its own answer.
#[test]
fn refused_allocation_prints_no_verdict(rt: HostRuntime) {
    let alloc = rt.alloc();
    let mut shelf = MemoryShelf::new(alloc, Vec::new(alloc));
    if shelf.place("c.aag", FIRST.circuit.as_bytes()).is_err()
        || shelf.place("c.lrat", FIRST.proof.as_bytes()).is_err()
    {
        return;
    }
    let line = "rtl_repair check c.aag c.lrat";
    let Ok(found) = command(&rt, alloc, &mut shelf, line, NO_FAILS) else {
        return;
    };
    let (out, notes) = (found.out.as_slice(), found.notes.as_slice());
    assert!(rt; found.status == 0 || found.status == 5);
    if found.status == 0 {
        assert!(rt; out == FIRST.out.as_bytes() && notes.is_empty());
    } else {
        assert!(rt; out.is_empty() && notes == b"out of memory\n".as_slice());
    }
}
