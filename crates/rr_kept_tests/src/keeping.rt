//! Sites written by hand, and which of them can be changed in the file.

ghost use Rattle.std.specs.Prelude.{◌≡◌};

use bumpalo::Bump;
use rr_choice::{SiteList, are_listed};
use rr_directive::expand;
use rr_kept::kept;
use rr_lex::{lex, words_of_tokens};
use rr_parse::parse;
use rr_syntax::{Site, SiteKind};
use std::alloc::Global;
use std::test::Fail;

fn literal<'a>(token: u32) -> Site<'a> {
    Site {
        kind: SiteKind::Literal {
            width: 4,
            signed: false,
        },
        token,
    }
}

fn guard<'a>(token: u32, extent: u32) -> Site<'a> {
    Site {
        kind: SiteKind::Guard {
            module: 0,
            extent,
            names: &[],
        },
        token,
    }
}

fn overwrite<'a>(token: u32) -> Site<'a> {
    Site {
        kind: SiteKind::Overwrite {
            module: 0,
            target: "q",
            width: 4,
            now: false,
            names: &[],
        },
        token,
    }
}

/// Whether some sites have these first tokens.
fn begin_at(sites: &[Site], tokens: &[u32]) -> bool {
    if sites.len() != tokens.len() {
        return false;
    }
    for (i, site) in sites.iter().enumerate() {
        if site.token != tokens[i] {
            return false;
        }
    }
    true
}

/// Whether those of some sites of a file that can be changed in it are those with these first tokens.
fn keeps(alloc: Global, file: &str, sites: &[Site], wanted: &[u32]) -> Result<bool, Fail> {
    if file.len() > 1_000_000 {
        return Err(Fail::from("a file too long"));
    }
    let mut list = Vec::new(alloc);
    list.extend_from_slice(sites)?;
    if !are_listed(list.as_slice()) {
        return Err(Fail::from("no list"));
    }
    let list = SiteList::new(list);
    let arena = Bump::new(alloc);
    words_of_tokens();
    match expand(alloc, file.as_bytes()) {
        Err(_) => Err(Fail::from("no text")),
        Ok(expanded) => match lex(expanded.text.as_slice(), &arena) {
            Err(_) => Err(Fail::from("no tokens")),
            Ok(tokens) => match parse(tokens, &arena) {
                Err(_) => Err(Fail::from("no tree")),
                Ok(source) => {
                    let found = kept(alloc, &expanded, tokens, source, &list)?;
                    Ok(begin_at(found.sites(), wanted))
                }
            },
        },
    }
}

/// A literal that a macro gives is not kept, nor is a body behind whose last token no text can be put.
#[test]
fn sites_in_macros(rt: HostRuntime) -> Result<(), Fail> {
    assert!(rt;
        keeps(
            rt.alloc(),
            "`define TWO 4'd2
module m(input clk, input rst, output reg [3:0] q);
  always @(posedge clk) if (rst) q <= 4'd0; else q <= `TWO;
endmodule
",
            &[overwrite(25), guard(27, 1), literal(31), literal(36)],
            &[25, 27, 31],
        )?
    );
    assert!(rt;
        keeps(
            rt.alloc(),
            "`define LAST 4'd2;
module m(input clk, input rst, output reg [3:0] q);
  always @(posedge clk) if (rst) q <= 4'd0; else q <= `LAST
endmodule
",
            &[overwrite(25), guard(27, 1), literal(31), literal(36)],
            &[27, 31],
        )?
    );
    Ok(())
}
