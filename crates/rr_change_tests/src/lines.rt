//! Reports on choices of a list of sites.

use bumpalo::Bump;
use rr_choice::{Choice, Pick, SiteList, are_listed};
use rr_lex::lex;
use rr_repair_report::report;
use rr_syntax::{Site, SiteKind};
use std::alloc::{AllocError, Global};
use std::test::Fail;

const DESIGN: &str =
    "module m(input c, input r, output reg q);\nalways @(posedge c) if (r) q <= 1'b0;\nendmodule\n";

fn on(value: u128, form: u8, name: u8) -> Pick {
    let on = true;
    Pick {
        on,
        value,
        form,
        name,
    }
}

fn off() -> Pick {
    let on = false;
    Pick {
        on,
        value: 1,
        form: 1,
        name: 0,
    }
}

fn overwrite<'a>(target: &'a str, now: bool, names: &'a [&'a str]) -> SiteKind<'a> {
    let module = 0;
    let width = 5;
    SiteKind::Overwrite {
        module,
        target,
        width,
        now,
        names,
    }
}

fn guard<'a>(names: &'a [&'a str]) -> SiteKind<'a> {
    let module = 0;
    let extent = 1;
    SiteKind::Guard {
        module,
        extent,
        names,
    }
}

fn literal<'a>(width: u32, signed: bool) -> SiteKind<'a> {
    SiteKind::Literal { width, signed }
}

/// Whether the report on one site at a token of the design, which is switched on, has this line.
fn tells(
    rt: &HostRuntime,
    kind: SiteKind<'_>,
    token: u32,
    pick: Pick,
    line: &str,
) -> Result<bool, Fail> {
    let alloc = rt.alloc();
    let arena = Bump::new(alloc);
    let Ok(tokens) = lex(DESIGN.as_bytes(), &arena) else {
        return Err(Fail::from("no tokens"));
    };
    let sites = vec![in alloc; Site { kind, token }]?;
    if !are_listed(sites.as_slice()) {
        return Err(Fail::from("no list"));
    }
    let list = SiteList::new(sites);
    let picks = vec![in alloc; pick]?;
    let choice = Choice { picks };
    let text = report(alloc, tokens, &list, &choice, 3)?;
    let wanted = format!(in alloc; "repaired 1\nsite 0 {line}\nproposals 3\n")?;
    Ok(text.as_str() == wanted.as_str())
}

#[test]
fn each_kind_and_form_has_its_line(rt: HostRuntime) -> Result<(), Fail> {
    let names = ["r", "q"];
    assert!(rt; tells(&rt, literal(1, false), 26, on(1, 0, 0), "literal 74 1'h1")?);
    assert!(rt;
        tells(
            &rt,
            literal(32, true),
            26,
            on(171, 0, 0),
            "literal 74 32'sh000000ab"
        )?
    );
    assert!(rt;
        tells(
            &rt,
            literal(128, false),
            0,
            on(u128::MAX, 0, 0),
            "literal 0 128'hffffffffffffffffffffffffffffffff"
        )?
    );
    assert!(rt; tells(&rt, guard(&names), 22, on(0, 0, 0), "guard 66 !(E)")?);
    assert!(rt; tells(&rt, guard(&names), 22, on(0, 1, 1), "guard 66 (E) && q")?);
    assert!(rt; tells(&rt, guard(&names), 22, on(0, 2, 0), "guard 66 (E) && !r")?);
    assert!(rt; tells(&rt, guard(&names), 22, on(0, 3, 0), "guard 66 (E) || r")?);
    assert!(rt; tells(&rt, guard(&names), 22, on(0, 4, 1), "guard 66 (E) || !q")?);
    assert!(rt;
        tells(
            &rt,
            overwrite("q", false, &names),
            20,
            on(9, 0, 0),
            "overwrite 62 if (1'h1) q <= 5'h09;"
        )?
    );
    assert!(rt;
        tells(
            &rt,
            overwrite("q", true, &names),
            20,
            on(16, 1, 0),
            "overwrite 62 if (r) q = 5'h10;"
        )?
    );
    assert!(rt;
        tells(
            &rt,
            overwrite("q", false, &names),
            20,
            on(0, 2, 1),
            "overwrite 62 if (!q) q <= 5'h00;"
        )?
    );
    Ok(())
}

#[test]
fn sites_that_are_off_have_no_line(rt: HostRuntime) -> Result<(), Fail> {
    let alloc = rt.alloc();
    let arena = Bump::new(alloc);
    let Ok(tokens) = lex(DESIGN.as_bytes(), &arena) else {
        return Err(Fail::from("no tokens"));
    };
    let names = ["r"];
    let kinds = [
        (overwrite("q", false, &names), 20),
        (guard(&names), 22),
        (literal(1, false), 26),
    ];
    let mut sites = Vec::new(alloc);
    for (kind, token) in kinds {
        sites.push(Site { kind, token })?;
    }
    if !are_listed(sites.as_slice()) {
        return Err(Fail::from("no list"));
    }
    let list = SiteList::new(sites);
    let picks = vec![in alloc; off(), on(0, 3, 0), on(1, 0, 0)]?;
    let choice = Choice { picks };
    let text = report(alloc, tokens, &list, &choice, 0)?;
    let wanted = "repaired 2\nsite 1 guard 66 (E) || r\nsite 2 literal 74 1'h1\nproposals 0\n";
    assert!(rt; text.as_str() == wanted);
    Ok(())
}
