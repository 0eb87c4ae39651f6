//! The bits that write a choice.

use rr_choice::{SiteList, are_listed, decode};
use rr_choice_bits::encode;
use rr_instance_laws::choice_laws;
use rr_syntax::{Site, SiteKind};
use std::alloc::Global;
use std::test::Fail;

/// The bits of the choice that these bits write.
fn written_again(alloc: Global, sites: Vec<Site>, bits: &[bool]) -> Result<Vec<bool>, Fail> {
    // Each site has few bits, so their number is below 2^32.
    choice_laws();
    if !are_listed(sites.as_slice()) {
        return Err(Fail::from("no list"));
    }
    let list = SiteList::new(sites);
    let found = list.sites();
    if found.len() > 1_000 {
        return Err(Fail::from("too many sites"));
    }
    if bits.len() != list.bits() as usize {
        return Err(Fail::from("other bits"));
    }
    let choice = decode(alloc, &list, bits)?;
    Ok(encode(alloc, &list, &choice)?)
}

/// A literal of three bits, a condition with two names and a variable of two bits with three names.
fn three_sites<'a>(
    alloc: Global,
    two: &'a [&'a str],
    three: &'a [&'a str],
) -> Result<Vec<Site<'a>>, Fail> {
    let literal = Site {
        kind: SiteKind::Literal {
            width: 3,
            signed: false,
        },
        token: 4,
    };
    let guard = Site {
        kind: SiteKind::Guard {
            module: 0,
            extent: 1,
            names: two,
        },
        token: 6,
    };
    let overwrite = Site {
        kind: SiteKind::Overwrite {
            module: 0,
            target: "q",
            width: 2,
            now: false,
            names: three,
        },
        token: 9,
    };
    let mut sites = Vec::new(alloc);
    sites.push(literal)?;
    sites.push(guard)?;
    sites.push(overwrite)?;
    Ok(sites)
}

/// The value 6; the form 4 and the second name; off, with the value 1, the form 2 and the third name.
#[test]
fn bits_are_written_again(rt: HostRuntime) -> Result<(), Fail> {
    let two = ["a", "b"];
    let three = ["a", "b", "c"];
    let sites = three_sites(rt.alloc(), &two, &three)?;
    let bits = [
        true, false, true, true, true, false, false, true, true, false, true, false, false, true,
        false, true,
    ];
    let again = written_again(rt.alloc(), sites, &bits)?;
    assert!(rt; again.as_slice() == bits.as_slice());
    Ok(())
}

/// A form past the last counts as the last, which is 4.
#[test]
fn a_form_past_the_last(rt: HostRuntime) -> Result<(), Fail> {
    let two = ["a", "b"];
    let three = ["a", "b", "c"];
    let sites = three_sites(rt.alloc(), &two, &three)?;
    let mut bits = [false; 16];
    bits[5] = true;
    bits[6] = true;
    bits[7] = true;
    let again = written_again(rt.alloc(), sites, &bits)?;
    bits[5] = false;
    bits[6] = false;
    assert!(rt; again.as_slice() == bits.as_slice());
    Ok(())
}
