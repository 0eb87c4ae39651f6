//! The texts of endings and refusals, and the calls of one command each.
use rr_check_certificate::{CertificateFault, Flaw, Verdict, judge, verdict_text};
use rr_endings::{Refusal, Stop, absent, out_fault, read_fault, refused, stopped};
use rr_run::Limit;
use std::process::Abort;
use std::thread::Threads;

#[test]
fn refusals_are_told(rt: HostRuntime) {
    let alloc = rt.alloc();
    for (refusal, text) in [
        (Refusal::TooManyBytes(7), "refused 16 TooMany bytes 7\n"),
        (
            Refusal::Flawed(Flaw::Circuit, 1),
            "refused 34 BadCircuit line 1\n",
        ),
        (
            Refusal::Flawed(Flaw::Proof, 2),
            "refused 35 BadProof line 2\n",
        ),
        (Refusal::Flawed(Flaw::Rat, 3), "refused 36 RatLine line 3\n"),
    ] {
        let report = refused(alloc, refusal);
        assert!(rt; report.text.as_bytes() == text.as_bytes(), "{text}");
    }
    for (limit, text) in [
        (Limit::Rows, "refused 16 TooMany rows 9\n"),
        (Limit::Sites, "refused 16 TooMany sites 9\n"),
        (Limit::Instances, "refused 16 TooMany instances 9\n"),
        (Limit::Depth, "refused 16 TooMany depth 9\n"),
        (Limit::FlatBits, "refused 16 TooMany flatbits 9\n"),
        (Limit::Work, "refused 16 TooMany work 9\n"),
        (Limit::Turns, "refused 16 TooMany turns 9\n"),
        (Limit::Unfolded, "refused 16 TooMany unfolded 9\n"),
        (Limit::Words, "refused 16 TooMany words 9\n"),
    ] {
        let refusal = Refusal::Input(rr_run::Refusal::TooMany(limit, 9));
        let report = stopped(alloc, Stop::Refused(refusal));
        assert!(rt; report.text.as_bytes() == text.as_bytes(), "{text}");
    }
}

#[test]
fn endings_are_told(rt: HostRuntime) {
    let alloc = rt.alloc();
    let report = absent(alloc, "a b").expect(&rt, "room");
    assert!(rt; report.text.as_bytes() == b"absent a b\n".as_slice());
    let report = read_fault(alloc, "a b").expect(&rt, "room");
    assert!(rt;
        report.text.as_bytes() == b"fault read a b\n".as_slice()
            && out_fault().text.as_bytes() == b"fault out\n".as_slice()
    );
    let report = stopped(alloc, Stop::Memory);
    assert!(rt; report.text.as_bytes() == b"out of memory\n".as_slice());
}

/// What is found of a certificate.
fn found<R: Abort + AllocGlobal + Threads + Sync>(
    rt: &R,
    circuit: &str,
    proof: &str,
) -> Result<Verdict, CertificateFault> {
    let alloc = rt.alloc();
    let circuit = Vec::from_slice(alloc, circuit.as_bytes()).expect(rt, "room");
    let proof = Vec::from_slice(alloc, proof.as_bytes()).expect(rt, "room");
    assert!(rt; circuit.len() <= 268_435_456);
    judge(rt, alloc, circuit, proof)
}

#[test]
fn certificates_are_judged(rt: HostRuntime) {
    let alloc = rt.alloc();
    let circuit = "aag 1 1 0 2 0\n2\n2\n3\n";
    assert!(rt;
        found(&rt, circuit, "3 0 1 2 0\n") == Ok(Verdict::Accepted)
            && found(&rt, circuit, "3 0 9 0\n") == Ok(Verdict::Line(1))
            && found(&rt, circuit, "") == Ok(Verdict::NoEmptyClause)
            && found(&rt, "aag 9\n", "x") == Err(CertificateFault::Flawed(Flaw::Circuit, 1))
    );
    for (verdict, text) in [
        (Verdict::Accepted, "accepted\n"),
        (Verdict::Line(5), "refused addition 5\n"),
        (Verdict::NoEmptyClause, "no empty clause\n"),
    ] {
        assert!(rt; verdict_text(alloc, verdict).expect(&rt, "room").as_str() == text);
    }
}
