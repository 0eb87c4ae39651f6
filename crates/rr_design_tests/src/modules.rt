//! Modules of declarations, each in a row of a table.
use bumpalo::Bump;
use rr_syntax::{
    Bounds, Declarator, Dir, Expr, Group, Item, Module, Named, Number, Params, Setting,
};
use std::alloc::{AllocError, Global};

/// A bound or a value: a literal with its width, sign and number, a name, or bit 0 of a name.
#[derive(Clone, Copy)]
pub(crate) enum Word {
    Literal(u32, bool, u128),
    Name(&'static str),
    Bit(&'static str),
}

/// Where and how a name is declared: as a plain name of the header, by a port declaration in the
/// header or among the items, as a net or a variable, or as a parameter before the ports or among
/// the items; a variable also with its starting value, by each of the three.
#[derive(Clone, Copy)]
pub(crate) enum Place {
    Plain,
    Header(Dir),
    Port(Dir),
    Wire,
    Reg,
    StartedHeader,
    StartedPort,
    StartedReg,
    Integer,
    First,
    Parameter,
    Local,
    IntegerParameter,
}

/// A declaration: its place, `signed`, its range, its name and a value. The range of the declaration
/// with number i begins at token 10i + 1, its bounds at 10i + 2 and 10i + 4, its name is token
/// 10i + 6, and its value 10i + 8.
pub(crate) type Row = (Place, bool, Option<(Word, Word)>, &'static str, Word);

static ZERO: Expr<'static> = Expr::Literal {
    token: 0,
    number: Number {
        width: 32,
        signed: true,
        value: 0,
        any: 0,
        unknown: 0,
    },
};

pub(crate) const Z: Word = Word::Literal(32, true, 0);

fn make_expr(token: u32, of: Word) -> Expr<'static> {
    match of {
        Word::Literal(width, signed, value) => Expr::Literal {
            token,
            number: Number {
                width,
                signed,
                value,
                any: 0,
                unknown: 0,
            },
        },
        Word::Name(name) => Expr::Name { token, name },
        Word::Bit(name) => Expr::Bit {
            token,
            name,
            index: &ZERO,
        },
    }
}

/// The bounds and the value of each declaration.
fn words<'a>(alloc: Global, arena: &'a Bump, rows: &[Row]) -> Result<&'a [Expr<'a>], AllocError> {
    let mut exprs = Vec::new(alloc);
    let mut token = 0u32;
    for row in rows.iter() {
        let range = row.2.unwrap_or((Z, Z));
        exprs.push(make_expr(token.wrapping_add(2), range.0))?;
        exprs.push(make_expr(token.wrapping_add(4), range.1))?;
        exprs.push(make_expr(token.wrapping_add(8), row.4))?;
        token = token.wrapping_add(10);
    }
    Ok(arena.try_alloc_slice_copy(exprs.as_slice())?)
}

/// The names of the declarations.
fn names<'a>(alloc: Global, arena: &'a Bump, rows: &[Row]) -> Result<&'a [Named<'a>], AllocError> {
    let mut list = Vec::new(alloc);
    let mut token = 6u32;
    for row in rows.iter() {
        list.push(Named { token, name: row.3 })?;
        token = token.wrapping_add(10);
    }
    Ok(arena.try_alloc_slice_copy(list.as_slice())?)
}

/// The same as nets and variables, some of them with their starting values.
fn declarators<'a>(
    alloc: Global,
    arena: &'a Bump,
    rows: &[Row],
    exprs: &'a [Expr<'a>],
) -> Result<&'a [Declarator<'a>], AllocError> {
    let mut list = Vec::new(alloc);
    let mut token = 6u32;
    let mut at = 2usize;
    for row in rows.iter() {
        list.push(Declarator {
            token,
            name: row.3,
            words: None,
            value: if is_started(row.0) {
                exprs.get(at)
            } else {
                None
            },
        })?;
        token = token.wrapping_add(10);
        at = at.wrapping_add(3);
    }
    Ok(arena.try_alloc_slice_copy(list.as_slice())?)
}

fn is_started(place: Place) -> bool {
    matches!(
        place,
        Place::StartedHeader | Place::StartedPort | Place::StartedReg
    )
}

/// The element at a place, alone.
fn one<T>(list: &[T], at: usize) -> &[T] {
    list.get(at..at.saturating_add(1)).unwrap_or(&[])
}

fn bounds<'a>(exprs: &'a [Expr<'a>], place: usize, row: &Row) -> Option<Bounds<'a>> {
    let at = place.wrapping_mul(3);
    match row.2 {
        None => None,
        Some(_) => Some(Bounds {
            left: exprs.get(at).unwrap_or(&ZERO),
            right: exprs.get(at.wrapping_add(1)).unwrap_or(&ZERO),
        }),
    }
}

/// The declarations as parameters, each with its value.
fn settings<'a>(
    alloc: Global,
    arena: &'a Bump,
    rows: &[Row],
    exprs: &'a [Expr<'a>],
) -> Result<&'a [Setting<'a>], AllocError> {
    let mut list = Vec::new(alloc);
    let mut token = 6u32;
    let mut at = 2usize;
    for row in rows.iter() {
        list.push(Setting {
            token,
            name: row.3,
            value: exprs.get(at).unwrap_or(&ZERO),
        })?;
        token = token.wrapping_add(10);
        at = at.wrapping_add(3);
    }
    Ok(arena.try_alloc_slice_copy(list.as_slice())?)
}

fn declared<'a>(row: &Row, range: Option<Bounds<'a>>, sets: &'a [Setting<'a>]) -> Params<'a> {
    Params {
        local: matches!(row.0, Place::Local),
        integer: matches!(row.0, Place::IntegerParameter),
        signed: row.1,
        range,
        sets,
    }
}

/// The slices that the declarations of a module borrow.
#[derive(Clone, Copy)]
pub(crate) struct Pieces<'a> {
    rows: &'static [Row],
    exprs: &'a [Expr<'a>],
    names: &'a [Named<'a>],
    declarators: &'a [Declarator<'a>],
    sets: &'a [Setting<'a>],
}

fn item<'a>(pieces: &Pieces<'a>, place: usize, row: &Row) -> Option<Item<'a>> {
    let range = bounds(pieces.exprs, place, row);
    let names = one(pieces.declarators, place);
    match row.0 {
        Place::Plain | Place::Header(_) | Place::StartedHeader | Place::First => None,
        Place::Port(dir) => Some(Item::Ports(group(dir, row, range, names))),
        Place::StartedPort => Some(Item::Ports(group(Dir::OutputReg, row, range, names))),
        Place::Wire => Some(Item::Nets {
            signed: row.1,
            range,
            names,
        }),
        Place::Reg | Place::StartedReg => Some(Item::Variables {
            signed: row.1,
            range,
            names,
        }),
        Place::Integer => Some(Item::Integers {
            names: one(pieces.names, place),
        }),
        Place::Parameter | Place::Local | Place::IntegerParameter => Some(Item::Parameters(declared(
            row,
            range,
            one(pieces.sets, place),
        ))),
    }
}

fn group<'a>(
    dir: Dir,
    row: &Row,
    range: Option<Bounds<'a>>,
    names: &'a [Declarator<'a>],
) -> Group<'a> {
    Group {
        dir,
        signed: row.1,
        range,
        names,
    }
}

fn items<'a>(
    alloc: Global,
    arena: &'a Bump,
    pieces: &Pieces<'a>,
) -> Result<&'a [Item<'a>], AllocError> {
    let mut list = Vec::new(alloc);
    for (place, row) in pieces.rows.iter().enumerate() {
        if let Some(item) = item(pieces, place, row) {
            list.push(item)?;
        }
    }
    Ok(arena.try_alloc_slice_copy(list.as_slice())?)
}

fn params<'a>(
    alloc: Global,
    arena: &'a Bump,
    pieces: &Pieces<'a>,
) -> Result<&'a [Params<'a>], AllocError> {
    let mut list = Vec::new(alloc);
    for (place, row) in pieces.rows.iter().enumerate() {
        if let Place::First = row.0 {
            let range = bounds(pieces.exprs, place, row);
            list.push(declared(row, range, one(pieces.sets, place)))?;
        }
    }
    Ok(arena.try_alloc_slice_copy(list.as_slice())?)
}

/// The direction of a port declaration in the header.
fn header_dir(place: Place) -> Option<Dir> {
    match place {
        Place::Header(dir) => Some(dir),
        Place::StartedHeader => Some(Dir::OutputReg),
        _ => None,
    }
}

fn groups<'a>(
    alloc: Global,
    arena: &'a Bump,
    pieces: &Pieces<'a>,
) -> Result<&'a [Group<'a>], AllocError> {
    let mut list = Vec::new(alloc);
    for (place, row) in pieces.rows.iter().enumerate() {
        if let Some(dir) = header_dir(row.0) {
            let range = bounds(pieces.exprs, place, row);
            list.push(group(dir, row, range, one(pieces.declarators, place)))?;
        }
    }
    Ok(arena.try_alloc_slice_copy(list.as_slice())?)
}

fn header<'a>(
    alloc: Global,
    arena: &'a Bump,
    pieces: &Pieces<'a>,
) -> Result<&'a [Named<'a>], AllocError> {
    let mut list = Vec::new(alloc);
    for (named, row) in pieces.names.iter().zip(pieces.rows.iter()) {
        if let Place::Plain = row.0 {
            list.push(*named)?;
        }
    }
    Ok(arena.try_alloc_slice_copy(list.as_slice())?)
}

/// The plain names of a header, where there are port brackets.
fn bracketed<'a>(header: &'a [Named<'a>], groups: &'a [Group<'a>]) -> Option<&'a [Named<'a>]> {
    if groups.is_empty() && header.is_empty() {
        None
    } else {
        Some(header)
    }
}

/// The module of these declarations.
pub(crate) fn module_of<'a>(
    alloc: Global,
    arena: &'a Bump,
    pieces: &Pieces<'a>,
) -> Result<Module<'a>, AllocError> {
    let groups = groups(alloc, arena, pieces)?;
    let header = header(alloc, arena, pieces)?;
    Ok(Module {
        name: "m",
        token: 0,
        params: params(alloc, arena, pieces)?,
        header: bracketed(header, groups),
        groups,
        items: items(alloc, arena, pieces)?,
    })
}

/// The slices of a module of these declarations.
pub(crate) fn pieces_of<'a>(
    alloc: Global,
    arena: &'a Bump,
    rows: &'static [Row],
) -> Result<Pieces<'a>, AllocError> {
    let exprs = words(alloc, arena, rows)?;
    Ok(Pieces {
        rows,
        exprs,
        names: names(alloc, arena, rows)?,
        declarators: declarators(alloc, arena, rows, exprs)?,
        sets: settings(alloc, arena, rows, exprs)?,
    })
}
