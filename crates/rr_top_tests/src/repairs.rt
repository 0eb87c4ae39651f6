//! The command `repair`: designs that are repaired, kept or beyond repair, with their certificates; refusals,
//! and calls that fail.
use crate::shelves::{self, NO_FAILS, NONE, command, shelf_of};
use rr_edge::{MemoryShelf, MemorySink};
use rr_top::run;
use std::process::Abort;
use std::thread::Threads;

/// A command line with the two files under its names, which calls fail, and what is wanted: `certified`
/// counts the files of the certificate that are held in the end, the first ones first.
#[derive(Clone, Copy)]
pub(crate) struct Case {
    pub(crate) words: &'static str,
    pub(crate) design: &'static str,
    pub(crate) table: &'static str,
    pub(crate) shelf_fails: u64,
    pub(crate) out_fails: u64,
    pub(crate) notes_fails: u64,
    pub(crate) room: u64,
    pub(crate) status: u8,
    pub(crate) out: &'static str,
    pub(crate) notes: &'static str,
    pub(crate) certified: usize,
}

/// A mask that has to be 1.
const FIRST: Case = Case {
    words: "rtl_repair repair d.v t.csv c",
    design: "module m(input a, output y);\n  assign y = a & 1'b0;\nendmodule\n",
    table: "a,y\n0,0\n1,1\n",
    shelf_fails: NONE,
    out_fails: NONE,
    notes_fails: NONE,
    room: 1000,
    status: 0,
    out: "module m(input a, output y);\n  assign y = a &  1'h1 ;\nendmodule\n",
    notes: "repaired 1\nsite 0 literal 46 1'h1\nproposals 1\n",
    certified: 3,
};

/// A case that prints and writes nothing.
const SILENT: Case = Case {
    out: "",
    certified: 0,
    ..FIRST
};

/// The names of a certificate's files, in the order in which they are written.
const CERTIFICATE: [&str; 3] = ["c.aag", "c.cnf", "c.lrat"];

const REFUSED: Case = Case {
    status: 3,
    ..SILENT
};

const FAULT: Case = Case {
    status: 4,
    ..SILENT
};

const USAGE_NOTES: &str =
    "usage: rtl_repair repair DESIGN TABLE CERT, run DESIGN TABLE, sites DESIGN, check CIRCUIT PROOF, make SEED CERT, lint DESIGN\n";

pub(crate) fn list<R: Abort + AllocGlobal>(rt: &R, number: u64) -> Vec<u64> {
    vec![in rt.alloc(); number].expect(rt, "room")
}

pub(crate) fn words_of<R: Abort + AllocGlobal>(rt: &R, line: &str) -> Vec<String> {
    shelves::words_of(rt.alloc(), line).expect(rt, "room")
}

pub(crate) fn check<R: Abort + AllocGlobal + Threads + Sync>(rt: &R, case: &Case) {
    let alloc = rt.alloc();
    let words = words_of(rt, case.words);
    let mut shelf = MemoryShelf::new(alloc, list(rt, case.shelf_fails));
    shelf
        .place("d.v", case.design.as_bytes())
        .expect(rt, "room");
    shelf
        .place("t.csv", case.table.as_bytes())
        .expect(rt, "room");
    let mut out = MemorySink::new(alloc, case.room, list(rt, case.out_fails)).expect(rt, "room");
    let mut notes = MemorySink::new(alloc, 1000, list(rt, case.notes_fails)).expect(rt, "room");
    let status = run(rt, alloc, &words, &mut shelf, &mut out, &mut notes);
    assert!(rt;
        status == case.status,
        "status of {} on {}",
        case.words,
        case.design
    );
    assert!(rt;
        out.written() == case.out.as_bytes(),
        "out of {} on {}",
        case.words,
        case.design
    );
    assert!(rt;
        notes.written() == case.notes.as_bytes(),
        "notes of {} on {}",
        case.words,
        case.design
    );
    assert!(rt;
        shelf.held("d.v") == Some(case.design.as_bytes())
            && shelf.held("t.csv") == Some(case.table.as_bytes())
    );
    for (number, name) in CERTIFICATE.iter().enumerate() {
        assert!(rt;
            shelf.held(name).is_some() == (number < case.certified),
            "{name} of {}",
            case.design
        );
    }
}

/// A design and a table that are kept as they are.
fn keeps<R: Abort + AllocGlobal + Threads + Sync>(
    rt: &R,
    design: &'static str,
    table: &'static str,
) {
    check(
        rt,
        &Case {
            design,
            table,
            out: design,
            notes: "unchanged\n",
            certified: 0,
            ..FIRST
        },
    );
}

/// A design that no choice mends.
fn despairs<R: Abort + AllocGlobal + Threads + Sync>(
    rt: &R,
    design: &'static str,
    table: &'static str,
    notes: &'static str,
) {
    check(
        rt,
        &Case {
            design,
            table,
            status: 1,
            notes,
            certified: 3,
            ..SILENT
        },
    );
}

/// A refusal, with the notes that tell it.
fn refuses<R: Abort + AllocGlobal + Threads + Sync>(
    rt: &R,
    words: &'static str,
    design: &'static str,
    table: &'static str,
    notes: &'static str,
) {
    check(
        rt,
        &Case {
            words,
            design,
            table,
            notes,
            ..REFUSED
        },
    );
}

/// A table that is refused.
fn no_table<R: Abort + AllocGlobal + Threads + Sync>(
    rt: &R,
    table: &'static str,
    notes: &'static str,
) {
    refuses(rt, FIRST.words, FIRST.design, table, notes);
}

/// Words that name no command.
fn no_words<R: Abort + AllocGlobal + Threads + Sync>(rt: &R, words: &'static str) {
    check(
        rt,
        &Case {
            words,
            status: 6,
            notes: USAGE_NOTES,
            ..SILENT
        },
    );
}

/// A name that is absent.
fn is_absent<R: Abort + AllocGlobal + Threads + Sync>(
    rt: &R,
    words: &'static str,
    notes: &'static str,
) {
    check(
        rt,
        &Case {
            words,
            notes,
            design: "\"",
            ..FAULT
        },
    );
}

#[test]
fn designs_are_repaired(rt: HostRuntime) {
    check(&rt, &FIRST);
    check(
        &rt,
        &Case {
            words: "rtl_repair repair --members=2 d.v --budget 1000 t.csv c",
            design: "/* low */module\\m+ (input(*x*)a,output y);assign y=1'd1;endmodule//",
            table: "a,y\n0,0\n1,0\n",
            out: "/* low */module\\m+ (input(*x*)a,output y);assign y= 1'h0 ;endmodule//",
            notes: "repaired 1\nsite 0 literal 51 1'h0\nproposals 1\n",
            ..FIRST
        },
    );
}

#[test]
fn designs_are_kept(rt: HostRuntime) {
    keeps(
        &rt,
        "module m(input a, output y);\n  assign y = a & 1'b1;\nendmodule\n",
        "a,y\n1,1\n",
    );
    keeps(&rt, FIRST.design, "a,y\n1,x\n");
    keeps(&rt, FIRST.design, "a,y\n");
}

#[test]
fn designs_are_beyond_repair(rt: HostRuntime) {
    despairs(
        &rt,
        "module m(input a, output y); assign y = a; endmodule",
        "a,y\n0,0\n0,1\n",
        "no repair\nsites 0\n",
    );
    despairs(&rt, FIRST.design, "a,y\n0,1\n", "no repair\nsites 1\n");
}

#[test]
fn tables_are_taken(rt: HostRuntime) {
    check(
        &rt,
        &Case {
            table: "time, y ,a\r\n5,\"0\",0b0\r\n\r\n10,0x1,1",
            ..FIRST
        },
    );
    keeps(&rt, FIRST.design, "a\n0\n1\n");
    keeps(&rt, FIRST.design, "a,y\nx,0\n");
}

#[test]
fn tables_are_refused(rt: HostRuntime) {
    no_table(&rt, "", "refused 26 NoHeader row 0\n");
    no_table(&rt, "a,b\n", "refused 27 UnknownColumn row 0 column 1\n");
    no_table(&rt, "a,a\n", "refused 28 ColumnTwice row 0 column 1\n");
    no_table(&rt, "y\n", "refused 29 MissingInput input a\n");
    no_table(&rt, "a,y\n1\n", "refused 30 RowLength row 1\n");
    no_table(
        &rt,
        "a,y\n0,0\n1,q\n",
        "refused 31 BadCell row 2 column 1\n",
    );
    no_table(
        &rt,
        "a,y\n0,2\n",
        "refused 32 CellTooLarge row 1 column 1\n",
    );
}

#[test]
fn designs_are_refused(rt: HostRuntime) {
    refuses(
        &rt,
        FIRST.words,
        "module m(input a, output y); assign y = ~a; endmodule",
        "a,b\n",
        "refused 27 UnknownColumn row 0 column 1\n",
    );
}

/// A design that is refused before its tree is read.
fn no_tree<R: Abort + AllocGlobal + Threads + Sync>(
    rt: &R,
    design: &'static str,
    notes: &'static str,
) {
    refuses(rt, FIRST.words, design, "", notes);
}

#[test]
fn words_and_texts_are_refused(rt: HostRuntime) {
    no_tree(
        &rt,
        "module m(output y);function f;endmodule",
        "refused 5 Unsupported at 19\n",
    );
    no_tree(
        &rt,
        "module m(output y);assign y = ; // $x\ninitial $display;endmodule",
        "refused 5 Unsupported at 46\n",
    );
    no_tree(
        &rt,
        "module m(output y);assign y = ;endmodule",
        "refused 6 Syntax at 30\n",
    );
    no_tree(
        &rt,
        "module m(input a, output y); assign y = a; endmodule ;",
        "refused 6 Syntax at 53\n",
    );
    no_tree(&rt, " module m ", "refused 6 Syntax at 9\n");
    no_tree(&rt, "wire a;", "refused 6 Syntax at 0\n");
}

#[test]
fn options_are_kept(rt: HostRuntime) {
    check(
        &rt,
        &Case {
            words: "rtl_repair repair d.v t.csv c --top m",
            ..FIRST
        },
    );
    check(
        &rt,
        &Case {
            words: "rtl_repair repair d.v t.csv c --clock=a",
            design: "module m(input a, output y); assign y = 1'b1; endmodule",
            table: "a,y\n7,0\n",
            out: "module m(input a, output y); assign y =  1'h0 ; endmodule",
            notes: "repaired 1\nsite 0 literal 40 1'h0\nproposals 1\n",
            ..FIRST
        },
    );
    refuses(
        &rt,
        "rtl_repair repair d.v t.csv c --top n",
        FIRST.design,
        "",
        "refused 7 NoTop at 0\n",
    );
    refuses(
        &rt,
        "rtl_repair repair d.v t.csv c --clock a",
        FIRST.design,
        "",
        "refused 22 ClockUse at 42\n",
    );
    refuses(
        &rt,
        "rtl_repair repair d.v t.csv c --clock b",
        FIRST.design,
        "",
        "refused 11 UnknownName at 7\n",
    );
}

#[test]
fn texts_are_refused(rt: HostRuntime) {
    let words = "rtl_repair repair d.v t.csv c --top m";
    refuses(
        &rt,
        words,
        "module m(output y);assign y = \"a\";endmodule",
        "",
        "refused 1 BadByte at 30\n",
    );
    refuses(
        &rt,
        words,
        "module m(output y);assign y = 2'd;endmodule",
        "",
        "refused 2 BadNumber at 30\n",
    );
    refuses(
        &rt,
        words,
        "module m(output y);/* x",
        "",
        "refused 3 OpenComment at 19\n",
    );
    refuses(
        &rt,
        words,
        "`include \"a.v\"",
        "",
        "refused 4 Directive at 0\n",
    );
}

#[test]
fn names_are_absent(rt: HostRuntime) {
    is_absent(&rt, "rtl_repair repair none.v t.csv c", "absent none.v\n");
    is_absent(&rt, "rtl_repair repair d.v none.csv c", "absent none.csv\n");
    is_absent(
        &rt,
        "rtl_repair repair none.v none.csv c",
        "absent none.v\n",
    );
}

#[test]
fn reads_fail(rt: HostRuntime) {
    check(
        &rt,
        &Case {
            shelf_fails: 0,
            notes: "fault read d.v\n",
            ..FAULT
        },
    );
    check(
        &rt,
        &Case {
            shelf_fails: 1,
            notes: "fault read t.csv\n",
            ..FAULT
        },
    );
}

#[test]
fn writes_fail(rt: HostRuntime) {
    for (certified, notes) in [
        (0, "fault write c.aag\n"),
        (1, "fault write c.cnf\n"),
        (2, "fault write c.lrat\n"),
    ] {
        check(
            &rt,
            &Case {
                shelf_fails: certified as u64 + 2,
                notes,
                certified,
                ..FAULT
            },
        );
    }
}

#[test]
fn puts_fail(rt: HostRuntime) {
    check(
        &rt,
        &Case {
            out_fails: 0,
            notes: "fault out\n",
            certified: 3,
            ..FAULT
        },
    );
    check(
        &rt,
        &Case {
            room: 10,
            out: "module m(i",
            notes: "fault out\n",
            certified: 3,
            ..FAULT
        },
    );
    check(
        &rt,
        &Case {
            notes_fails: 0,
            notes: "",
            out: FIRST.out,
            certified: 3,
            ..FAULT
        },
    );
}

#[test]
fn words_name_no_command(rt: HostRuntime) {
    no_words(&rt, "rtl_repair");
    no_words(&rt, "rtl_repair repair");
    no_words(&rt, "rtl_repair --help");
    no_words(&rt, "rtl_repair check c.aag");
    no_words(&rt, "rtl_repair repair d.v t.csv c --budget 0");
}

/// The status of the command on these bytes, and whether the report is this.
fn is_told<R: Abort + AllocGlobal + Threads + Sync>(
    rt: &R,
    design: &[u8],
    table: &[u8],
    report: &str,
) -> u8 {
    let alloc = rt.alloc();
    let words = words_of(rt, FIRST.words);
    let mut shelf = MemoryShelf::new(alloc, Vec::new(alloc));
    shelf.place("d.v", design).expect(rt, "room");
    shelf.place("t.csv", table).expect(rt, "room");
    let mut out = MemorySink::new(alloc, 1000, Vec::new(alloc)).expect(rt, "room");
    let mut notes = MemorySink::new(alloc, 1000, Vec::new(alloc)).expect(rt, "room");
    let status = run(rt, alloc, &words, &mut shelf, &mut out, &mut notes);
    assert!(rt; notes.written() == report.as_bytes(), "report {report}");
    status
}

#[test]
fn limits_of_bytes_are_kept(rt: HostRuntime) {
    let alloc = rt.alloc();
    let blanks = vec![in alloc; b' '; 1_048_577].expect(&rt, "room");
    assert!(rt;
        is_told(&rt, &blanks, b"", "refused 16 TooMany bytes 1048577\n") == 3
            && is_told(&rt, &blanks[1..], b"", "refused 7 NoTop at 0\n") == 3
            && is_told(
                &rt,
                FIRST.design.as_bytes(),
                b"\xff",
                "refused 33 NotUtf8\n"
            ) == 3
    );
}

#[test]
fn limits_of_rows_are_kept(rt: HostRuntime) {
    let alloc = rt.alloc();
    let mut table = Vec::from_slice(alloc, b"a,y\n".as_slice()).expect(&rt, "room");
    for _ in 0..65_537 {
        table.extend_from_slice(b"1,1\n").expect(&rt, "room");
    }
    assert!(rt;
        is_told(
            &rt,
            FIRST.design.as_bytes(),
            &table,
            "refused 16 TooMany rows 65537\n"
        ) == 3
    );
}

/// A run that was refused one allocation ends with status 5 and prints nothing, or with its own answer.
#[test]
fn refused_allocation_prints_nothing(rt: HostRuntime) {
    let alloc = rt.alloc();
    let Ok(mut shelf) = shelf_of(alloc, NONE, FIRST.design, FIRST.table) else {
        return;
    };
    let Ok(found) = command(&rt, alloc, &mut shelf, FIRST.words, NO_FAILS) else {
        return;
    };
    let (out, notes) = (found.out.as_slice(), found.notes.as_slice());
    assert!(rt; found.status == 0 || found.status == 5);
    if found.status == 0 {
        assert!(rt; out == FIRST.out.as_bytes() && notes == FIRST.notes.as_bytes());
    } else {
        assert!(rt; out.is_empty() && notes == b"out of memory\n".as_slice());
    }
}

#[test]
fn usage_can_not_be_told(rt: HostRuntime) {
    check(
        &rt,
        &Case {
            words: "rtl_repair",
            notes_fails: 0,
            notes: "",
            ..FAULT
        },
    );
}
