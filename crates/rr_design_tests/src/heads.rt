//! Heads of modules, with the facts or the fault that IEEE 1364-2005 sections 3 and 12 and the rules
//! of the profile give them.
use crate::modules::{Place, Row, Word, Z, module_of, pieces_of};
use bumpalo::Bump;
use rr_bits::Bits;
use rr_declarations::{Head, open_head};
use rr_expr::{Entity, Scope};
use rr_syntax::{Dir, Module};
use std::alloc::{AllocError, Global};
use std::test::Fail;

/// An override of a parameter by a word of that width, sign and number, the declarations, and what
/// the head of their module is: its signals, each with its name, port, whether it is a variable,
/// range, sign and token, and its starting value where that is not 0, and its parameters, each with
/// its name, width, sign and number.
type Case = (
    &'static Option<(&'static str, u32, bool, u128)>,
    &'static [Row],
    &'static str,
);

const THREE: Word = Word::Literal(32, true, 3);

const SEVEN: Word = Word::Literal(32, true, 7);

const MINUS_ONE: Word = Word::Literal(4, true, 15);

const BYTE: Option<(Word, Word)> = Some((SEVEN, Z));

const NIBBLE: Option<(Word, Word)> = Some((THREE, Z));

const SCALAR: Option<(Word, Word)> = Some((Z, Z));

const WIDEST: Option<(Word, Word)> = Some((Word::Literal(32, true, 127), Z));

const WIDER: Option<(Word, Word)> = Some((Word::Literal(32, true, 128), Z));

const PORTS: [Case; 17] = [
    (&None, &[], ""),
    (
        &None,
        &[
            (Place::Header(Dir::Input), false, None, "clk", Z),
            (Place::Header(Dir::OutputReg), true, NIBBLE, "q", Z),
        ],
        "clk Input false None false 6; q Output true Some((3, 0)) true 16; ",
    ),
    (
        &None,
        &[
            (Place::Plain, false, None, "b", Z),
            (Place::Plain, false, None, "a", Z),
            (Place::Wire, false, None, "w", Z),
            (Place::Port(Dir::InputWire), false, None, "a", Z),
            (Place::Port(Dir::OutputWire), false, None, "b", Z),
        ],
        "b Output false None false 46; a Input false None false 36; w Inner false None false 26; ",
    ),
    (
        &None,
        &[(Place::Plain, false, None, "a", Z)],
        "UnknownName(6)",
    ),
    (
        &None,
        &[
            (Place::Plain, false, None, "a", Z),
            (Place::Plain, false, None, "a", Z),
            (Place::Port(Dir::Input), false, None, "a", Z),
        ],
        "NameTwice(16)",
    ),
    (
        &None,
        &[
            (Place::Plain, false, None, "a", Z),
            (Place::Port(Dir::Input), false, None, "a", Z),
            (Place::Port(Dir::Input), false, None, "b", Z),
        ],
        "UnknownName(26)",
    ),
    (
        &None,
        &[(Place::Port(Dir::Input), false, None, "a", Z)],
        "UnknownName(6)",
    ),
    (
        &None,
        &[
            (Place::Header(Dir::Input), false, None, "a", Z),
            (Place::Port(Dir::Input), false, None, "a", Z),
        ],
        "NameTwice(16)",
    ),
    (
        &None,
        &[
            (Place::Plain, false, None, "q", Z),
            (Place::Port(Dir::Output), false, BYTE, "q", Z),
            (Place::Reg, false, BYTE, "q", Z),
        ],
        "q Output true Some((7, 0)) false 16; ",
    ),
    (
        &None,
        &[
            (Place::Plain, false, None, "q", Z),
            (Place::Port(Dir::Output), false, BYTE, "q", Z),
            (Place::Reg, false, NIBBLE, "q", Z),
        ],
        "BadRange(26)",
    ),
    (
        &None,
        &[
            (Place::Header(Dir::Output), false, None, "q", Z),
            (Place::Wire, false, SCALAR, "q", Z),
        ],
        "BadRange(16)",
    ),
    (
        &None,
        &[
            (Place::Header(Dir::Output), false, None, "q", Z),
            (Place::Wire, true, None, "q", Z),
        ],
        "q Output false None true 6; ",
    ),
    (
        &None,
        &[
            (Place::Header(Dir::Output), false, None, "q", Z),
            (Place::Wire, false, None, "q", Z),
            (Place::Wire, false, None, "q", Z),
        ],
        "NameTwice(26)",
    ),
    (
        &None,
        &[
            (Place::Header(Dir::OutputReg), false, None, "q", Z),
            (Place::Reg, false, None, "q", Z),
        ],
        "NameTwice(16)",
    ),
    (
        &None,
        &[
            (Place::Header(Dir::Output), false, None, "q", Z),
            (Place::Integer, false, None, "q", Z),
        ],
        "NameTwice(16)",
    ),
    (
        &None,
        &[
            (Place::Plain, false, None, "q", Z),
            (Place::Reg, false, None, "q", Z),
            (Place::Port(Dir::Output), false, None, "q", Z),
        ],
        "NameTwice(26)",
    ),
    (
        &None,
        &[
            (Place::Plain, false, None, "a", Z),
            (Place::Port(Dir::Input), false, None, "a", Z),
            (Place::Wire, false, None, "b", Z),
            (Place::Port(Dir::Input), false, None, "b", Z),
        ],
        "NameTwice(36)",
    ),
];

const INTEGER: Case = (
    &None,
    &[(Place::Integer, false, None, "i", Z)],
    "i Inner true Some((31, 0)) true 6; ",
);

const RANGES: [Case; 13] = [
    INTEGER,
    (
        &None,
        &[(Place::Wire, false, WIDER, "a", Z)],
        "TooWide(6, 129)",
    ),
    (
        &None,
        &[(Place::Reg, false, WIDEST, "a", Z)],
        "a Inner true Some((127, 0)) false 6; ",
    ),
    (
        &None,
        &[(
            Place::Wire,
            false,
            Some((
                Word::Literal(32, true, 65535),
                Word::Literal(32, true, 65530),
            )),
            "a",
            Z,
        )],
        "a Inner false Some((65535, 65530)) false 6; ",
    ),
    (
        &None,
        &[(
            Place::Wire,
            false,
            Some((
                Word::Literal(32, true, 65536),
                Word::Literal(32, true, 65530),
            )),
            "a",
            Z,
        )],
        "BadRange(1)",
    ),
    (
        &None,
        &[(Place::Wire, false, Some((Z, MINUS_ONE)), "a", Z)],
        "BadRange(1)",
    ),
    (
        &None,
        &[(
            Place::Wire,
            false,
            Some((Word::Literal(32, true, 70000), Word::Name("z"))),
            "a",
            Z,
        )],
        "BadRange(1)",
    ),
    (
        &None,
        &[
            (Place::Wire, false, Some((Word::Name("W"), Z)), "a", Z),
            (Place::Parameter, false, None, "W", THREE),
        ],
        "a Inner false Some((3, 0)) false 6; W 32 true 3; ",
    ),
    (
        &None,
        &[
            (Place::Wire, false, Some((Word::Bit("a"), Z)), "b", Z),
            (Place::Wire, false, None, "a", Z),
        ],
        "NotConstant(2)",
    ),
    (
        &None,
        &[
            (Place::Header(Dir::Output), false, None, "y", Z),
            (Place::Wire, false, Some((Word::Name("y"), Z)), "a", Z),
        ],
        "NotConstant(12)",
    ),
    (
        &None,
        &[(Place::Wire, false, Some((Z, Word::Name("z"))), "a", Z)],
        "UnknownName(4)",
    ),
    (
        &None,
        &[
            (Place::Wire, false, None, "a", Z),
            (Place::Reg, false, None, "a", Z),
        ],
        "NameTwice(16)",
    ),
    (
        &None,
        &[
            (Place::Wire, false, None, "a", Z),
            (Place::Wire, false, WIDER, "a", Z),
        ],
        "NameTwice(16)",
    ),
];

const PARAMETERS: [Case; 13] = [
    (
        &Some(("W", 8, false, 9)),
        &[
            (Place::First, false, None, "W", THREE),
            (Place::Wire, false, Some((Word::Name("W"), Z)), "a", Z),
        ],
        "a Inner false Some((9, 0)) false 16; W 8 false 9; ",
    ),
    (
        &Some(("W", 4, true, 15)),
        &[(Place::First, false, BYTE, "W", THREE)],
        "W 8 false 255; ",
    ),
    (
        &None,
        &[(Place::First, true, BYTE, "W", MINUS_ONE)],
        "W 8 true 255; ",
    ),
    (
        &None,
        &[(Place::First, true, None, "W", Word::Literal(4, false, 15))],
        "W 4 true 15; ",
    ),
    (
        &None,
        &[(Place::IntegerParameter, false, None, "W", MINUS_ONE)],
        "W 32 true 4294967295; ",
    ),
    (
        &Some(("L", 8, false, 9)),
        &[(Place::Local, false, None, "L", THREE)],
        "L 32 true 3; ",
    ),
    (
        &None,
        &[
            (Place::First, false, None, "A", THREE),
            (Place::Local, false, None, "B", Word::Name("A")),
        ],
        "A 32 true 3; B 32 true 3; ",
    ),
    (
        &None,
        &[
            (Place::First, false, None, "A", Z),
            (Place::Parameter, false, None, "A", Z),
        ],
        "NameTwice(16)",
    ),
    (
        &None,
        &[
            (Place::Wire, false, None, "A", Z),
            (Place::Parameter, false, None, "A", Z),
        ],
        "NameTwice(6)",
    ),
    (
        &None,
        &[
            (Place::Parameter, false, Some((Word::Name("B"), Z)), "A", Z),
            (Place::Parameter, false, None, "B", Z),
        ],
        "UnknownName(2)",
    ),
    (
        &None,
        &[
            (Place::Parameter, false, None, "A", Word::Name("a")),
            (Place::Wire, false, None, "a", Z),
        ],
        "UnknownName(8)",
    ),
    (
        &None,
        &[(Place::First, false, WIDER, "A", Z)],
        "TooWide(6, 129)",
    ),
    (
        &Some(("A", 4, false, 1)),
        &[(Place::First, false, None, "A", Word::Name("z"))],
        "UnknownName(8)",
    ),
];

const FIVE: Word = Word::Literal(4, false, 5);

/// Starting values of each declaration, extended and cut.
const STARTS: [Case; 8] = [
    (
        &None,
        &[(Place::StartedReg, false, NIBBLE, "q", FIVE)],
        "q Inner true Some((3, 0)) false 6; starts 5; ",
    ),
    (
        &None,
        &[(Place::StartedReg, false, None, "q", FIVE)],
        "q Inner true None false 6; starts 1; ",
    ),
    (
        &None,
        &[(
            Place::StartedReg,
            false,
            NIBBLE,
            "q",
            Word::Literal(8, false, 48),
        )],
        "q Inner true Some((3, 0)) false 6; ",
    ),
    (
        &None,
        &[(Place::StartedHeader, false, BYTE, "q", MINUS_ONE)],
        "q Output true Some((7, 0)) false 6; starts 255; ",
    ),
    (
        &None,
        &[(
            Place::StartedHeader,
            true,
            BYTE,
            "q",
            Word::Literal(4, false, 15),
        )],
        "q Output true Some((7, 0)) true 6; starts 15; ",
    ),
    (
        &None,
        &[
            (Place::Plain, false, None, "q", Z),
            (Place::StartedPort, false, NIBBLE, "q", THREE),
        ],
        "q Output true Some((3, 0)) false 16; starts 3; ",
    ),
    (
        &None,
        &[
            (Place::Plain, false, None, "q", Z),
            (Place::Port(Dir::Output), false, BYTE, "q", Z),
            (Place::StartedReg, false, BYTE, "q", SEVEN),
        ],
        "q Output true Some((7, 0)) false 16; starts 7; ",
    ),
    (
        &None,
        &[
            (Place::Header(Dir::Output), false, None, "q", Z),
            (Place::StartedReg, true, None, "q", FIVE),
        ],
        "q Output true None true 6; starts 1; ",
    ),
];

/// Parameters in starting values, and faults of these.
const VALUES_OF_STARTS: [Case; 9] = [
    (
        &Some(("P", 8, false, 9)),
        &[
            (Place::First, false, None, "P", THREE),
            (Place::StartedReg, false, NIBBLE, "q", Word::Name("P")),
        ],
        "q Inner true Some((3, 0)) false 16; starts 9; P 8 false 9; ",
    ),
    (
        &None,
        &[
            (Place::StartedHeader, false, NIBBLE, "q", Word::Name("P")),
            (Place::Parameter, false, None, "P", THREE),
        ],
        "q Output true Some((3, 0)) false 6; starts 3; P 32 true 3; ",
    ),
    (
        &None,
        &[
            (Place::StartedReg, false, None, "q", Word::Name("a")),
            (Place::Wire, false, None, "a", Z),
        ],
        "NotConstant(8)",
    ),
    (
        &None,
        &[
            (Place::Header(Dir::Output), false, None, "q", Z),
            (Place::StartedReg, false, None, "q", Word::Name("q")),
        ],
        "NotConstant(18)",
    ),
    (
        &None,
        &[(Place::StartedReg, false, None, "q", Word::Name("z"))],
        "UnknownName(8)",
    ),
    (
        &None,
        &[(Place::StartedReg, false, WIDER, "q", Word::Name("z"))],
        "TooWide(6, 129)",
    ),
    (
        &None,
        &[(Place::StartedPort, false, None, "q", Word::Name("z"))],
        "UnknownName(6)",
    ),
    (
        &None,
        &[
            (Place::Wire, false, None, "q", Z),
            (Place::StartedReg, false, None, "q", Word::Name("z")),
        ],
        "NameTwice(16)",
    ),
    (
        &None,
        &[
            (Place::Header(Dir::Output), false, BYTE, "q", Z),
            (Place::StartedReg, false, NIBBLE, "q", Word::Name("z")),
        ],
        "BadRange(16)",
    ),
];

/// Names, ports, kinds, ranges, signs and tokens of the signals, and their starting values.
fn signals_told(text: &mut String, head: &Head) -> Result<(), AllocError> {
    for s in head.signals.iter() {
        write!(
            text,
            "{} {:?} {} {:?} {} {}; ",
            s.name, s.port, s.variable, s.range, s.signed, s.token
        )?;
        if s.start != 0 {
            write!(text, "starts {}; ", s.start)?;
        }
    }
    Ok(())
}

/// Names, widths, signs and numbers of the parameters.
fn constants_told(text: &mut String, head: &Head, rows: &[Row]) -> Result<(), AllocError> {
    for row in rows.iter() {
        let found = head.scope.find(row.3);
        if let Some(Entity::Constant { bits, signed }) = &found {
            let width = bits.width();
            let number = bits.to_u128();
            write!(text, "{} {} {} {}; ", row.3, width, signed, number)?;
        }
    }
    Ok(())
}

fn told(
    alloc: Global,
    before: u64,
    own: &Module,
    given: &Scope,
    rows: &[Row],
) -> Result<String, AllocError> {
    match open_head(alloc, 0, 0, before.min(65536), given, own) {
        Err(fault) => format!(in alloc; "{fault:?}"),
        Ok(head) => {
            let mut text = String::new(alloc);
            signals_told(&mut text, &head)?;
            constants_told(&mut text, &head, rows)?;
            Ok(text)
        }
    }
}

/// What the head of a module of these declarations is, in a design of that many bits before.
fn told_of_rows(
    alloc: Global,
    before: u64,
    rows: &'static [Row],
    given: &Scope,
) -> Result<String, AllocError> {
    let arena = Bump::new(alloc);
    let pieces = pieces_of(alloc, &arena, rows)?;
    let own = module_of(alloc, &arena, &pieces)?;
    told(alloc, before, &own, given, rows)
}

fn told_of_case(alloc: Global, before: u64, case: &Case) -> Result<String, AllocError> {
    let mut given = Scope::new(alloc);
    if let Some((name, width, signed, value)) = *case.0 {
        let bits = Bits::from_u128(width.clamp(1, 128), value);
        given.add(name, Entity::Constant { bits, signed })?;
    }
    told_of_rows(alloc, before, case.1, &given)
}

/// The place of the first case that is told otherwise.
fn first_wrong(alloc: Global, cases: &[Case]) -> Result<Option<usize>, AllocError> {
    for (place, case) in cases.iter().enumerate() {
        if told_of_case(alloc, 0, case)?.as_str() != case.2 {
            return Ok(Some(place));
        }
    }
    Ok(None)
}

/// Fails at the first case of these tables that is told otherwise.
fn all_right(alloc: Global, tables: &[&[Case]]) -> Result<(), Fail> {
    for (table, cases) in tables.iter().enumerate() {
        if let Some(place) = first_wrong(alloc, cases)? {
            return Err(Fail::new(format_args!("case {place} of table {table}")));
        }
    }
    Ok(())
}

#[test]
fn ports_ranges_parameters(rt: HostRuntime) -> Result<(), Fail> {
    all_right(rt.alloc(), &[&PORTS, &RANGES, &PARAMETERS])
}

#[test]
fn starting_values(rt: HostRuntime) -> Result<(), Fail> {
    all_right(rt.alloc(), &[&STARTS, &VALUES_OF_STARTS])
}

#[test]
fn counts_bits(rt: HostRuntime) -> Result<(), Fail> {
    let full = told_of_case(rt.alloc(), 65504, &INTEGER)?;
    assert!(rt; full.as_str() == INTEGER.2);
    let over = told_of_case(rt.alloc(), 65505, &INTEGER)?;
    assert!(rt; over.as_str() == "TooMany(FlatBits, 65537)");
    Ok(())
}
