//! Instances of designs, whose texts are those that a repair prints.

use crate::texts::{shown, source_of};
use bumpalo::Bump;
use rr_choice::{Choice, Pick, SiteList, are_listed, cost, decode, find};
use rr_instance_laws::choice_laws;
use rr_source_instance::instance;
use rr_syntax::{Site, SiteKind};
use std::alloc::{AllocError, Global};
use std::test::Fail;

/// A literal of a width without a sign.
fn literal<'a>(token: u32, width: u32) -> Site<'a> {
    Site {
        kind: SiteKind::Literal {
            width,
            signed: false,
        },
        token,
    }
}

/// A condition of so many tokens.
fn guard<'a>(token: u32, extent: u32, names: &'a [&'a str]) -> Site<'a> {
    Site {
        kind: SiteKind::Guard {
            module: 0,
            extent,
            names,
        },
        token,
    }
}

/// A variable that is written by `<=`.
fn overwrite<'a>(token: u32, target: &'a str, width: u32, names: &'a [&'a str]) -> Site<'a> {
    Site {
        kind: SiteKind::Overwrite {
            module: 0,
            target,
            width,
            now: false,
            names,
        },
        token,
    }
}

/// A site that is switched on.
fn on(value: u128, form: u8, name: u8) -> Pick {
    Pick {
        on: true,
        value,
        form,
        name,
    }
}

/// A site that is switched off, whatever else is chosen at it.
fn off() -> Pick {
    Pick {
        on: false,
        value: 3,
        form: 1,
        name: 0,
    }
}

/// A list of sites that make one.
fn list_of<'a>(alloc: Global, sites: &[Site<'a>]) -> Result<SiteList<'a>, Fail> {
    let mut list = Vec::new(alloc);
    list.extend_from_slice(sites)?;
    if !are_listed(list.as_slice()) {
        return Err(Fail::from("no list"));
    }
    Ok(SiteList::new(list))
}

/// The choice that bits write at no more than a thousand sites, and its cost.
fn decoded(alloc: Global, list: &SiteList, bits: &[bool]) -> Result<(Choice, u32), Fail> {
    // Each site has few bits, so their number is below 2^32.
    choice_laws();
    let sites = list.sites();
    if sites.len() > 1_000 {
        return Err(Fail::from("too many sites"));
    }
    if bits.len() != list.bits() as usize {
        return Err(Fail::from("other bits"));
    }
    let choice = decode(alloc, list, bits)?;
    if choice.picks.len() > 1_000 {
        return Err(Fail::from("too many picks"));
    }
    let count = cost(&choice);
    Ok((choice, count))
}

/// Whether a choice at the sites of a design makes another design.
fn makes<'a>(
    alloc: Global,
    design: &str,
    sites: &[Site<'a>],
    picks: &[Pick],
    repaired: &str,
    arena: &'a Bump,
) -> Result<bool, Fail> {
    let source = source_of(design, arena)?;
    let wanted = source_of(repaired, arena)?;
    let list = match list_of(alloc, sites) {
        Ok(list) => list,
        Err(fail) => return Err(fail),
    };
    let mut chosen = Vec::new(alloc);
    chosen.extend_from_slice(picks)?;
    let choice = Choice { picks: chosen };
    let made = instance(source, &list, &choice, arena)?;
    let made = shown(alloc, made)?;
    let wanted = shown(alloc, wanted)?;
    Ok(made.as_str() == wanted.as_str())
}

/// A counter that counts by two.
const COUNTER: &str = "module counter(input clk, input rst, output reg [3:0] q);
  always @(posedge clk)
    if (rst) q <= 4'd0;
    else q <= q + 4'd2;
endmodule
";

/// The counter's bits are 7 for the last assignment of `q` with one name, 4 for the guard and 5 for each
/// literal; the last literal is switched on with the value 1, and the guard has the form 7, which counts
/// as the last.
#[test]
fn counter_from_bits(rt: HostRuntime) -> Result<(), Fail> {
    let names = ["rst"];
    let sites = [
        overwrite(25, "q", 4, &names),
        guard(27, 1, &names),
        literal(31, 4),
        literal(38, 4),
    ];
    let list = match list_of(rt.alloc(), &sites) {
        Ok(list) => list,
        Err(fail) => return Err(fail),
    };
    let bits = [
        false, false, false, false, false, false, false, false, true, true, true, false, false,
        false, false, false, true, true, false, false, false,
    ];
    let (choice, count) = decoded(rt.alloc(), &list, &bits)?;
    assert!(rt; count == 1);
    let guarded = Pick {
        on: false,
        value: 0,
        form: 4,
        name: 0,
    };
    assert!(rt; choice.picks.get(1) == Some(&guarded));
    assert!(rt; choice.picks.get(3) == Some(&on(1, 0, 0)));
    assert!(rt; list.first_at(28) == 2);
    assert!(rt; matches!(find(&list, &choice, 38, None), Some(found) if found.pick.on));
    assert!(rt; matches!(find(&list, &choice, 27, Some(2)), None));
    Ok(())
}

/// Designs with one fault or two, and their repairs.
#[test]
fn repairs(rt: HostRuntime) -> Result<(), Fail> {
    let arena = Bump::new(rt.alloc());
    let names = ["rst"];
    assert!(rt;
        makes(
            rt.alloc(),
            COUNTER,
            &[
                overwrite(25, "q", 4, &names),
                guard(27, 1, &names),
                literal(31, 4),
                literal(38, 4)
            ],
            &[off(), off(), off(), on(1, 0, 0)],
            "module counter(input clk, input rst, output reg [3:0] q);
  always @(posedge clk)
    if (rst) q <= 4'd0;
    else q <= q +  4'h1 ;
endmodule",
            &arena,
        )?
    );
    // An inverted reset.
    assert!(rt;
        makes(
            rt.alloc(),
            "module m(input clk, input rst, output reg q);
  always @(posedge clk)
    if (!rst) q <= 1'b0;
    else q <= ~q;
endmodule",
            &[guard(22, 2, &names)],
            &[on(0, 0, 0)],
            "module m(input clk, input rst, output reg q);
  always @(posedge clk)
    if ( ! ( !rst ) ) q <= 1'b0;
    else q <= ~q;
endmodule",
            &arena,
        )?
    );
    // A missing reset.
    assert!(rt;
        makes(
            rt.alloc(),
            "module m(input clk, input rst, output reg [3:0] q);
  always @(posedge clk)
    q <= q + 4'd1;
endmodule",
            &[overwrite(25, "q", 4, &names), literal(29, 4)],
            &[on(0, 1, 0), off()],
            "module m(input clk, input rst, output reg [3:0] q);
  always @(posedge clk) begin 
    q <= q + 4'd1; if ( rst ) q <= 4'h0 ; end 
endmodule",
            &arena,
        )?
    );
    // Two faults.
    assert!(rt;
        makes(
            rt.alloc(),
            "module m(input clk, output reg [3:0] p, output reg [3:0] q);
  always @(posedge clk) p <= p + 4'd2;
  always @(posedge clk) q <= q + 4'd3;
endmodule",
            &[literal(35, 4), literal(47, 4)],
            &[on(1, 0, 0), on(1, 0, 0)],
            "module m(input clk, output reg [3:0] p, output reg [3:0] q);
  always @(posedge clk) p <= p +  4'h1 ;
  always @(posedge clk) q <= q +  4'h1 ;
endmodule",
            &arena,
        )?
    );
    Ok(())
}

/// A design without blanks, with a site of each kind, of which one is off.
#[test]
fn sites_of_each_kind(rt: HostRuntime) -> Result<(), Fail> {
    let arena = Bump::new(rt.alloc());
    let names = ["s"];
    assert!(rt;
        makes(
            rt.alloc(),
            "module m(input clk,input s,output reg[3:0]q);always@(posedge clk)q<=s?4'd3:4'd0;endmodule",
            &[
                overwrite(25, "q", 4, &names),
                guard(27, 1, &names),
                literal(29, 4),
                literal(31, 4)
            ],
            &[on(9, 2, 0), on(0, 2, 0), on(10, 0, 0), off()],
            "module m(input clk,input s,output reg[3:0]q);always@(posedge clk) begin q<= ( s ) && ! s ? \
             4'ha :4'd0; if ( ! s ) q <= 4'h9 ; end endmodule",
            &arena,
        )?
    );
    Ok(())
}

/// A condition inside another that begins at the same token, two last assignments of one body, of which
/// the first is innermost, and a form, a name and a value past the last.
#[test]
fn nested_sites(rt: HostRuntime) -> Result<(), Fail> {
    let arena = Bump::new(rt.alloc());
    let names = ["a", "b"];
    let design = "module m(input clk, input a, input b, output reg [3:0] p, output reg q);
  always @(posedge clk) if (a ? b : a) q <= b;
endmodule";
    assert!(rt;
        makes(
            rt.alloc(),
            design,
            &[guard(34, 5, &names), guard(34, 1, &names)],
            &[on(0, 1, 1), on(0, 3, 0)],
            "module m(input clk, input a, input b, output reg [3:0] p, output reg q);
  always @(posedge clk) if ( ( ( a ) || a ? b : a ) && b ) q <= b;
endmodule",
            &arena,
        )?
    );
    assert!(rt;
        makes(
            rt.alloc(),
            design,
            &[overwrite(32, "p", 4, &names), overwrite(32, "q", 1, &names)],
            &[on(19, 0, 0), on(1, 9, 9)],
            "module m(input clk, input a, input b, output reg [3:0] p, output reg q);
  always @(posedge clk) begin begin if (a ? b : a) q <= b; if ( 1'h1 ) p <= 4'h3 ; end if ( ! b ) q <= 1'h1 ; end
endmodule",
            &arena,
        )?
    );
    Ok(())
}

/// A loop over a condition and an assignment.
const LOOP: &str = "module m(input clk, input s, output reg [3:0] q);
  integer i;
  always @(posedge clk)
    for (i = 0; i < 4; i = i + 1)
      if (s) q <= q + 4'd2;
endmodule
";

/// A site of each kind in and round a loop, each one for all turns; and a literal of a loop's head, which
/// stays whatever is chosen at its token.
#[test]
fn sites_of_loops(rt: HostRuntime) -> Result<(), Fail> {
    let arena = Bump::new(rt.alloc());
    let names = ["s"];
    assert!(rt;
        makes(
            rt.alloc(),
            LOOP,
            &[
                overwrite(28, "q", 4, &names),
                guard(46, 1, &names),
                literal(52, 4)
            ],
            &[on(9, 1, 0), on(0, 0, 0), on(1, 0, 0)],
            "module m(input clk, input s, output reg [3:0] q);
  integer i;
  always @(posedge clk) begin
    for (i = 0; i < 4; i = i + 1)
      if ( ! ( s ) ) q <= q +  4'h1 ; if ( s ) q <= 4'h9 ; end
endmodule",
            &arena,
        )?
    );
    assert!(rt;
        makes(
            rt.alloc(),
            LOOP,
            &[literal(36, 32), literal(52, 4)],
            &[on(7, 0, 0), on(1, 0, 0)],
            "module m(input clk, input s, output reg [3:0] q);
  integer i;
  always @(posedge clk)
    for (i = 0; i < 4; i = i + 1)
      if (s) q <= q +  4'h1 ;
endmodule",
            &arena,
        )?
    );
    Ok(())
}
