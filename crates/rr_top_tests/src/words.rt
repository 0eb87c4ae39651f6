//! Lines of words with the commands that they name.
use rr_words::{Command, WordsFault, read_words, usage};
use std::alloc::Global;
use std::test::Fail;

/// The words of a line, apart by one blank each, and the command that they name; `None` where the
/// answer is `Usage`.
const LINES: [(&str, &Option<Command>); 78] = [
    (
        "p lint d",
        &Some(Command::Lint {
            design: "d",
            top: None,
        }),
    ),
    (
        "p lint --top=m d",
        &Some(Command::Lint {
            design: "d",
            top: Some("m"),
        }),
    ),
    ("p lint", &None),
    ("p lint d --clock c", &None),
    ("p lint d e", &None),
    (
        "p repair d t c",
        &Some(Command::Repair {
            design: "d",
            table: "t",
            cert: "c",
            top: None,
            clock: None,
            budget: 20000,
            members: 4,
        }),
    ),
    (
        "p repair d t c --top m --budget=7",
        &Some(Command::Repair {
            design: "d",
            table: "t",
            cert: "c",
            top: Some("m"),
            clock: None,
            budget: 7,
            members: 4,
        }),
    ),
    (
        "p repair --top=m d t c",
        &Some(Command::Repair {
            design: "d",
            table: "t",
            cert: "c",
            top: Some("m"),
            clock: None,
            budget: 20000,
            members: 4,
        }),
    ),
    (
        "p repair d --members 8 t --clock=k c --top m --budget 1000000",
        &Some(Command::Repair {
            design: "d",
            table: "t",
            cert: "c",
            top: Some("m"),
            clock: Some("k"),
            budget: 1000000,
            members: 8,
        }),
    ),
    (
        "p repair d t c --budget 1 --members=1",
        &Some(Command::Repair {
            design: "d",
            table: "t",
            cert: "c",
            top: None,
            clock: None,
            budget: 1,
            members: 1,
        }),
    ),
    (
        "p repair d t c --budget 0007",
        &Some(Command::Repair {
            design: "d",
            table: "t",
            cert: "c",
            top: None,
            clock: None,
            budget: 7,
            members: 4,
        }),
    ),
    (
        "p run d t",
        &Some(Command::Run {
            design: "d",
            table: "t",
            top: None,
            clock: None,
        }),
    ),
    (
        "p run --clock k d --top=m t",
        &Some(Command::Run {
            design: "d",
            table: "t",
            top: Some("m"),
            clock: Some("k"),
        }),
    ),
    (
        "p sites d",
        &Some(Command::Sites {
            design: "d",
            top: None,
            clock: None,
        }),
    ),
    (
        "p sites --top m --clock=k d",
        &Some(Command::Sites {
            design: "d",
            top: Some("m"),
            clock: Some("k"),
        }),
    ),
    (
        "p check a b",
        &Some(Command::Check {
            circuit: "a",
            proof: "b",
        }),
    ),
    ("another name", &None),
    (
        "anything check a b",
        &Some(Command::Check {
            circuit: "a",
            proof: "b",
        }),
    ),
    ("p make 0 c", &Some(Command::Make { seed: 0, cert: "c" })),
    (
        "p make 18446744073709551615 c",
        &Some(Command::Make {
            seed: u64::MAX,
            cert: "c",
        }),
    ),
    (
        "p make 00000000000000000000000000012 c",
        &Some(Command::Make {
            seed: 12,
            cert: "c",
        }),
    ),
    (
        "p repair d --top= t c",
        &Some(Command::Repair {
            design: "d",
            table: "t",
            cert: "c",
            top: Some(""),
            clock: None,
            budget: 20000,
            members: 4,
        }),
    ),
    (
        "p check -- -a --b",
        &Some(Command::Check {
            circuit: "-a",
            proof: "--b",
        }),
    ),
    (
        "p check - b",
        &Some(Command::Check {
            circuit: "-",
            proof: "b",
        }),
    ),
    (
        "p check  b",
        &Some(Command::Check {
            circuit: "",
            proof: "b",
        }),
    ),
    (
        "p check check b",
        &Some(Command::Check {
            circuit: "check",
            proof: "b",
        }),
    ),
    (
        "p repair -- d t c",
        &Some(Command::Repair {
            design: "d",
            table: "t",
            cert: "c",
            top: None,
            clock: None,
            budget: 20000,
            members: 4,
        }),
    ),
    (
        "p check a b --",
        &Some(Command::Check {
            circuit: "a",
            proof: "b",
        }),
    ),
    ("", &None),
    ("p", &None),
    ("p repair", &None),
    ("p repair d", &None),
    ("p repair d t", &None),
    ("p repair d t c e", &None),
    ("p help", &None),
    ("p --help", &None),
    ("p -h", &None),
    ("p --version", &None),
    ("p -V", &None),
    ("p repair --help", &None),
    ("p repair -h", &None),
    ("p help repair", &None),
    ("p repairs d t c", &None),
    ("p Repair d t c", &None),
    ("p check a", &None),
    ("p check a b c", &None),
    ("p check a -b", &None),
    ("p check a b --top m", &None),
    ("p sites a --top m --top n", &None),
    ("p sites a --top m --top=m", &None),
    ("p sites a --top", &None),
    ("p --top m sites a", &None),
    ("p --top=m sites a", &None),
    ("p sites a --to m", &None),
    ("p sites a -top m", &None),
    ("p sites a --top --clock", &None),
    ("p sites a --top -m", &None),
    ("p run a b --budget 5", &None),
    ("p make 1", &None),
    ("p make c 1", &None),
    ("p make +1 c", &None),
    ("p make -1 c", &None),
    ("p make 18446744073709551616 c", &None),
    ("p make 1_000 c", &None),
    ("p make 0x1 c", &None),
    ("p make  c", &None),
    ("p repair d t c --budget 0", &None),
    ("p repair d t c --budget 1000001", &None),
    ("p repair d t c --budget=+5", &None),
    ("p repair d t c --budget=", &None),
    ("p repair d t c --budget 1.0", &None),
    ("p repair d t c --members=0", &None),
    ("p repair d t c --members 9", &None),
    ("p repair d t c --members 4294967297", &None),
    ("p repair d t c --members four", &None),
    ("p repair d t c --members 18446744073709551620", &None),
    ("p repair d t -- --top m", &None),
    ("p check -- a b --", &None),
];

fn words_of(alloc: Global, line: &str) -> Result<Vec<String>, Fail> {
    let mut words = Vec::new(alloc);
    if line.is_empty() {
        return Ok(words);
    }
    for word in line.split(' ') {
        words.push(String::from_str(alloc, word)?)?;
    }
    Ok(words)
}

fn reads(alloc: Global, line: &str, expected: Option<Command>) -> Result<bool, Fail> {
    let words = words_of(alloc, line)?;
    let wanted = expected.ok_or(WordsFault::Usage);
    Ok(read_words(alloc, words.as_slice()) == wanted)
}

/// The first line that is answered otherwise.
fn first_misread<'a>(
    alloc: Global,
    lines: &'a [(&'a str, &'a Option<Command<'a>>)],
) -> Result<Option<&'a str>, Fail> {
    for (line, expected) in lines {
        if !reads(alloc, line, **expected)? {
            return Ok(Some(line));
        }
    }
    Ok(None)
}

#[test]
fn reads_lines(rt: HostRuntime) -> Result<(), Fail> {
    let misread = first_misread(rt.alloc(), &LINES)?;
    assert!(rt; misread == None);
    Ok(())
}

#[test]
fn says_the_usage(rt: HostRuntime) {
    assert!(rt;
        usage()
            == "usage: rtl_repair repair DESIGN TABLE CERT, run DESIGN TABLE, sites DESIGN, check CIRCUIT PROOF, make SEED CERT, lint DESIGN\n"
    );
}
