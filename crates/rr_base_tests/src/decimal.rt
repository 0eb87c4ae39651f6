//! Numbers at the heads of texts.
use rr_decimal::{digits, number_then, push_number};
use std::test::Fail;

/// Texts with the number that stands at their head before a blank, and the length of the rest.
const HEADS: [(&[u8], Option<(u64, usize)>); 14] = [
    (b"0 ", Some((0, 0))),
    (b"7 8", Some((7, 1))),
    (b"120 0\n", Some((120, 2))),
    (b"18446744073709551615 ", Some((u64::MAX, 0))),
    (b"18446744073709551616 ", None),
    (b"99999999999999999999999 ", None),
    (b"", None),
    (b" ", None),
    (b"7", None),
    (b"7\n", None),
    (b"07 ", None),
    (b"00 ", None),
    (b"-7 ", None),
    (b"7a ", None),
];

fn reads(text: &[u8], expected: Option<(u64, usize)>) -> bool {
    number_then(text, b' ').map(|(number, rest)| (number, rest.len())) == expected
}

#[test]
fn reads_heads(rt: HostRuntime) {
    for (text, expected) in HEADS.iter() {
        assert!(rt; reads(text, *expected), "a head");
    }
}

#[test]
fn writes_numbers(rt: HostRuntime) -> Result<(), Fail> {
    let mut text = Vec::new(rt.alloc());
    push_number(&mut text, 0, b' ')?;
    push_number(&mut text, u64::MAX, b'\n')?;
    assert!(rt; text.as_slice() == b"0 18446744073709551615\n".as_slice());
    assert!(rt; digits(0) == 1 && digits(u64::MAX) == 20);
    Ok(())
}
