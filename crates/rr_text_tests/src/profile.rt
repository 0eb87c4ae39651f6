//! Words outside the profile, each at its place.

use crate::texts::{is_in_rules, tokens_of};
use bumpalo::Bump;
use rr_outside_words::first_outside;
use rr_syntax::KEYWORDS;
use std::alloc::Global;
use std::test::Fail;

/// The first token of a text whose word has no rule.
fn first(alloc: Global, text: &str) -> Result<Option<u32>, Fail> {
    let arena = Bump::new(alloc);
    let tokens = tokens_of(text, &arena)?;
    Ok(first_outside(tokens))
}

#[test]
fn each_reserved_word(rt: HostRuntime) -> Result<(), Fail> {
    let mut used: u32 = 0;
    for word in KEYWORDS.iter() {
        let has_rule = is_in_rules(*word);
        if has_rule && used < 100 {
            used += 1;
        }
        let text = format!(in rt.alloc(); "a {word} b")?;
        let wanted = if has_rule { None } else { Some(1) };
        assert!(rt; first(rt.alloc(), text.as_str())? == wanted, "{word}");
    }
    assert!(rt; used == 26);
    Ok(())
}

/// Texts with the first token that has no rule.
const NAMES_AND_DELAYS: [(&str, Option<u32>); 15] = [
    ("", None),
    ("module m ; endmodule", None),
    ("a = $signed ( b ) + $unsigned ( c ) ;", None),
    ("$display ( a ) ;", Some(0)),
    ("a = $time ;", Some(2)),
    ("a = $sign ;", Some(2)),
    ("# 5 a = b ;", Some(0)),
    ("a = # b ;", Some(2)),
    ("m # ( 5 ) i ( ) ;", None),
    ("a #", Some(1)),
    ("a # # ( 5 )", Some(1)),
    ("a initial wait b", Some(2)),
    ("a ; ; ) 5 5 $f function", Some(6)),
    ("for ( a = b ; a ; a = b ) genvar", Some(12)),
    ("for generate endgenerate", Some(1)),
];

#[test]
fn system_names_and_delays(rt: HostRuntime) -> Result<(), Fail> {
    for &(text, wanted) in NAMES_AND_DELAYS.iter() {
        assert!(rt; first(rt.alloc(), text)? == wanted, "{text}");
    }
    Ok(())
}
