//! Expressions over four signals of one width, `a` and `b` without a sign, `s` and `t` with one, the
//! parameter `P`, which is 9 in four bits, and two memories over these signals: the words 2 to 5 of `m`
//! are all four, and those 0 and 1 of `w`, which have a sign, are `b` and `s`. The bits of `t` rise.
ghost use Rattle.std.specs.Prelude.{◌≡◌, ◌≤◌, IfOk};
ghost use Rattle.rr_choice.specs.Choices.{total_bits};

use bumpalo::Bump;
use rr_bits::Bits;
use rr_choice::{SiteList, are_listed};
use rr_expr::{Entity, Scope};
use rr_instance_laws::choice_laws;
use rr_lex::lex;
use rr_parse_expr::expr;
use rr_syntax::{Expr, Site};
use std::alloc::{AllocError, Global};
use std::test::Fail;

/// The expression that a text begins with.
pub(crate) fn expr_of<'a>(text: &str, arena: &'a Bump) -> Result<&'a Expr<'a>, Fail> {
    if text.len() > 1_000_000 {
        return Err(Fail::from("a text too long"));
    }
    match lex(text.as_bytes(), arena) {
        Err(_) => Err(Fail::from("no tokens")),
        Ok(tokens) => match expr(tokens, 0, arena) {
            Err(_) => Err(Fail::from("no expression")),
            Ok((tree, _)) => Ok(tree),
        },
    }
}

/// The names, each signal with so many bits.
pub(crate) fn names(alloc: Global, width: u32) -> Result<Scope<'static>, AllocError>
    requires { 1 ≤ width }
{
    let mut scope = Scope::new(alloc);
    let range = Some((width - 1, 0));
    let rising = Some((0, width - 1));
    let parts = [
        ("a", 0, range, false),
        ("b", 1, range, false),
        ("s", 2, range, true),
        ("t", 3, rising, true),
    ];
    for (name, id, range, signed) in parts {
        scope.add(name, Entity::Signal { id, range, signed })?;
    }
    let bits = Bits::from_u128(4, 9);
    let signed = false;
    scope.add("P", Entity::Constant { bits, signed })?;
    for (name, first, low, words, signed) in [("m", 0, 2, 4, false), ("w", 1, 0, 2, true)] {
        scope.add(
            name,
            Entity::Memory {
                first,
                low,
                words,
                range,
                signed,
            },
        )?;
    }
    Ok(scope)
}

/// The list of no more than two sites.
pub(crate) fn list_of<'a>(alloc: Global, sites: &[Site<'a>]) -> Result<SiteList<'a>, Fail>
    ensures few { IfOk result (λ l. total_bits l ≤ 400) }
{
    // A site has few bits.
    choice_laws();
    let mut copies = Vec::new(alloc);
    copies.extend_from_slice(sites)?;
    if copies.len() > 2 || !are_listed(copies.as_slice()) {
        return Err(Fail::from("no list"));
    }
    Ok(SiteList::new(copies))
}

/// The bits that digits write, the first first.
pub(crate) fn bits_of(alloc: Global, digits: &str) -> Result<Vec<bool>, AllocError> {
    let mut bits = Vec::new(alloc);
    for digit in digits.bytes() {
        bits.push(digit == b'1')?;
    }
    Ok(bits)
}

/// The next four numbers of a row that 64-bit steps make (Knuth's multiplier), and where it goes on.
pub(crate) fn next_numbers(seed: u64, width: u32) -> ([u128; 4], u64)
    requires low { 1 ≤ width }
    requires high { width ≤ 128 }
{
    let mut at = seed;
    let mut numbers = [0; 4];
    for number in &mut numbers {
        for _ in 0..4u32 {
            at = at
                .wrapping_mul(6364136223846793005)
                .wrapping_add(1442695040888963407);
            *number = (*number << 32) | u128::from(at >> 32);
        }
        *number >>= 128 - width;
    }
    (numbers, at)
}
