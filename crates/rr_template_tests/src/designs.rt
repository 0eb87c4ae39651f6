//! The guard sites and the overwrite sites of two modules, one of which instantiates the other, of a
//! module with loops, and of one with a memory.

ghost use Rattle.std.specs.Prelude.{◌≡◌, ◌<◌, ◌^◌, ℕ, IfOk, IfSome, List, Option, length, map};
ghost use Rattle.std.specs.List.{AllByRecursion};
ghost use Rattle.rr_syntax.specs.Items.{FitLiteralsSource};
ghost use Rattle.rr_syntax.specs.View.{plain_source};
ghost use Rattle.rr_lex.specs.Tokens.{lexemes};
ghost use Rattle.rr_flat.specs.View.{plain_flat};
ghost use Rattle.rr_elaborate.specs.Designs.{IsDesignOf};
ghost use Rattle.rr_change_places.specs.Spots.{IsCountable};
ghost use Rattle.rr_clock.specs.Places.{ArePlaces};
ghost use Rattle.rr_clock.specs.View.{plain_place};
ghost use Rattle.rr_sites_listed.specs.Listing.{IsFitPlace, scope_of};

use bumpalo::Bump;
use rr_clock::{Found, clock_places, find_clock};
use rr_elaborate::{Design, elaborate};
use rr_expr::Scope;
use rr_flat::Flat;
use rr_guard::sites as guard_sites;
use rr_overwrite::sites as overwrite_sites;
use rr_syntax::{ModulePlace, Site, SiteKind, Source};
use std::alloc::{AllocError, Global};
use std::test::Fail;

/// A register of one bit that a condition of four tokens sets, and a body that the register chooses by; the
/// other module has neither a body nor a condition.
const TEXT: &str = "module step(input clk, input go, input [3:0] a, output reg [3:0] y);
  reg seen;
  always @(posedge clk) if (go & !seen) seen <= 1'b1;
  always @* begin y = a; if (seen) y = go ? 4'd0 : ~a; end
endmodule
module top(input clk, input go, input [3:0] a, output [3:0] y);
  step u(.clk(clk), .go(go), .a(a), .y(y));
endmodule
";

/// `go & !seen` in the clocked block, where a guard may be each scalar but the clock; `seen` and `go` in the other
/// body, where it may be the register alone.
const STEP_GUARDS: [Site; 3] = [
    Site {
        kind: SiteKind::Guard {
            module: 0,
            extent: 4,
            names: &["go", "seen"],
        },
        token: 38,
    },
    Site {
        kind: SiteKind::Guard {
            module: 0,
            extent: 1,
            names: &["seen"],
        },
        token: 57,
    },
    Site {
        kind: SiteKind::Guard {
            module: 0,
            extent: 1,
            names: &["seen"],
        },
        token: 61,
    },
];

/// The register at the `if` of the clocked block, and `y` at the `begin` of the other.
const STEP_OVERWRITES: [Site; 2] = [
    Site {
        kind: SiteKind::Overwrite {
            module: 0,
            target: "seen",
            width: 1,
            now: false,
            names: &["go", "seen"],
        },
        token: 36,
    },
    Site {
        kind: SiteKind::Overwrite {
            module: 0,
            target: "y",
            width: 4,
            now: true,
            names: &["seen"],
        },
        token: 50,
    },
];

/// Two blocks with a loop. The clocked one writes `v` outside its loop, and inside `r` by `=` and `w` by `<=`.
const LOOPS: &str = "module m(input clk, input s, input [3:0] a, output reg [3:0] y);
  integer i;
  reg r, v, w;
  always @(posedge clk) begin
    v <= s;
    for (i = 0; i < 4; i = i + 1) if (a[i]) begin r = s; w <= v; end
  end
  always @* begin y = a; for (i = 0; i < 4; i = i + 1) if (v) y[i] = w; end
endmodule
";

/// `a[i]` in the clocked block, where a guard may be each scalar but the clock and `r`; `v` in the other body,
/// where it may be `v` alone, since `w` is written in a loop. The tests of loops are no conditions.
const LOOP_GUARDS: [Site; 2] = [
    Site {
        kind: SiteKind::Guard {
            module: 0,
            extent: 4,
            names: &["s", "v", "w"],
        },
        token: 66,
    },
    Site {
        kind: SiteKind::Guard {
            module: 0,
            extent: 1,
            names: &["v"],
        },
        token: 108,
    },
];

/// The targets outside of loops: `v` at the `begin` of the clocked block, and `y` at that of the other.
const LOOP_OVERWRITES: [Site; 2] = [
    Site {
        kind: SiteKind::Overwrite {
            module: 0,
            target: "v",
            width: 1,
            now: false,
            names: &["s", "v", "w"],
        },
        token: 43,
    },
    Site {
        kind: SiteKind::Overwrite {
            module: 0,
            target: "y",
            width: 4,
            now: true,
            names: &["v"],
        },
        token: 85,
    },
];

/// A memory of scalar words beside a register: the clocked block writes a word by its index, and both read some.
const WORDS: &str = "module m(input clk, input s, input [1:0] a, output reg [1:0] y);
  reg r [0:3], v;
  always @(posedge clk) begin r[a] <= s; if (r[3]) v <= s; end
  always @* begin y = a; if (v) y = r[a]; end
endmodule
";

/// `r[3]` in the clocked block, and `v` in the other body. The memory is no name of a guard, also where `<=` writes it.
const WORD_GUARDS: [Site; 2] = [
    Site {
        kind: SiteKind::Guard {
            module: 0,
            extent: 4,
            names: &["s", "v"],
        },
        token: 53,
    },
    Site {
        kind: SiteKind::Guard {
            module: 0,
            extent: 1,
            names: &["v"],
        },
        token: 73,
    },
];

/// `v` at the `begin` of the clocked block, where no word is one, and `y` at that of the other.
const WORD_OVERWRITES: [Site; 2] = [
    Site {
        kind: SiteKind::Overwrite {
            module: 0,
            target: "v",
            width: 1,
            now: false,
            names: &["s", "v"],
        },
        token: 43,
    },
    Site {
        kind: SiteKind::Overwrite {
            module: 0,
            target: "y",
            width: 2,
            now: true,
            names: &["v"],
        },
        token: 66,
    },
];

/// Which of the two calls is asked.
#[derive(Clone, Copy)]
enum Asked {
    Guards,
    Overwrites,
}

fn is_same_kind(found: &SiteKind, expected: &SiteKind) -> bool {
    match (*found, *expected) {
        (
            SiteKind::Guard {
                module,
                extent,
                names,
            },
            SiteKind::Guard {
                module: owner,
                extent: length,
                names: guards,
            },
        ) => module == owner && extent == length && names == guards,
        (
            SiteKind::Overwrite {
                module,
                target,
                width,
                now,
                names,
            },
            SiteKind::Overwrite {
                module: owner,
                target: variable,
                width: bits,
                now: blocking,
                names: guards,
            },
        ) => {
            module == owner
                && target == variable
                && width == bits
                && now == blocking
                && names == guards
        }
        _ => false,
    }
}

fn are_same(found: &[Site], expected: &[Site]) -> bool {
    if found.len() != expected.len() {
        return false;
    }
    for (one, other) in found.iter().zip(expected) {
        if one.token != other.token || !is_same_kind(&one.kind, &other.kind) {
            return false;
        }
    }
    true
}

/// The modules that have instances, with the names that lead to the clock.
fn places_of<'a>(
    alloc: Global,
    flat: &Flat<'a>,
    arena: &'a Bump,
) -> Result<&'a [ModulePlace<'a>], AllocError>
    ensures { IfOk result (λ places. (clock : Option ℕ) × ArePlaces (plain_flat flat.now) clock (map plain_place places.now)) }
{
    match find_clock(alloc, flat, None)? {
        Found::Clock { signal, .. } => clock_places(alloc, flat, signal, arena),
        Found::Nowhere(_) => clock_places(alloc, flat, None, arena),
    }
}

/// The names of the first instance of a module.
fn first_scope<'s, 'a>(
    scopes: &'s [Scope<'a>],
    owners: &[u32],
    module: u32,
) -> Option<&'s Scope<'a>>
    ensures { IfSome result (λ scope. scope.now ≡ scope_of scopes.now owners.now «module») }
{
    let end = scopes.len().min(owners.len());
    for i in 0..end {
        if owners[i] == module {
            return Some(&scopes[i]);
        }
    }
    None
}

/// The guard sites of the module of a place.
fn guards_of<'a>(
    alloc: Global,
    source: &'a Source<'a>,
    place: &ModulePlace<'a>,
    arena: &'a Bump,
) -> Result<Vec<Site<'a>>, Fail>
    requires { AllByRecursion IsCountable (plain_source source.now).modules }
{
    match source.modules.get(place.module as usize) {
        Some(module) => Ok(guard_sites(alloc, module, place, arena)?),
        None => Err(Fail::from("no module")),
    }
}

/// The overwrite sites of the module of a place, with the widths of its first instance.
fn overwrites_of<'a>(
    alloc: Global,
    source: &'a Source<'a>,
    scopes: &[Scope<'a>],
    owners: &[u32],
    place: &ModulePlace<'a>,
    arena: &'a Bump,
) -> Result<Vec<Site<'a>>, Fail>
    requires { IsFitPlace (plain_source source.now) scopes.now owners.now (plain_place place.now) }
{
    match source.modules.get(place.module as usize) {
        Some(module) => match first_scope(scopes, owners, place.module) {
            Some(scope) => Ok(overwrite_sites(alloc, module, scope, place, arena)?),
            None => Err(Fail::from("no instance")),
        },
        None => Err(Fail::from("no module")),
    }
}

/// The sites of the module of a place, of the kind that is asked.
fn sites_of<'a>(
    alloc: Global,
    source: &'a Source<'a>,
    flat: &Flat<'a>,
    place: &ModulePlace<'a>,
    asked: Asked,
    arena: &'a Bump,
) -> Result<Vec<Site<'a>>, Fail>
    requires few { AllByRecursion IsCountable (plain_source source.now).modules }
    requires fit { IsFitPlace (plain_source source.now) (plain_flat flat.now).scopes (plain_flat flat.now).owners (plain_place place.now) }
{
    match asked {
        Asked::Guards => guards_of(alloc, source, place, arena),
        Asked::Overwrites => overwrites_of(
            alloc,
            source,
            flat.scopes.as_slice(),
            flat.owners.as_slice(),
            place,
            arena,
        ),
    }
}

/// Whether the place at a number has these sites.
fn has_sites<'a>(
    alloc: Global,
    design: &Design<'a>,
    at: usize,
    asked: Asked,
    expected: &[Site],
    arena: &'a Bump,
) -> Result<bool, Fail>
    requires tree { (bytes : List ℕ) × ((top : Option (List ℕ)) × IsDesignOf bytes (lexemes design.now.tokens.now) (plain_source design.now.source.now) top (plain_flat design.now.flat)) }
    requires fit { FitLiteralsSource (plain_source design.now.source.now) }
    requires few { length design.now.tokens.now < 2 ^ 32 }
{
    let places = places_of(alloc, &design.flat, arena)?;
    match places.get(at) {
        Some(place) => {
            let found = sites_of(alloc, design.source, &design.flat, place, asked, arena)?;
            Ok(are_same(found.as_slice(), expected))
        }
        None => Err(Fail::from("no place")),
    }
}

/// Whether a call answers these sites for the module of a text at a number.
fn answers(
    alloc: Global,
    text: &str,
    at: usize,
    asked: Asked,
    expected: &[Site],
) -> Result<bool, Fail> {
    let bytes = text.as_bytes();
    if bytes.len() > 1_048_576 {
        return Err(Fail::from("a text too long"));
    }
    let arena = Bump::new(alloc);
    match elaborate(alloc, bytes, None, &arena) {
        Ok(design) => has_sites(alloc, &design, at, asked, expected, &arena),
        Err(_) => Err(Fail::from("no design")),
    }
}

#[test]
fn guards_of_modules(rt: HostRuntime) -> Result<(), Fail> {
    let alloc = rt.alloc();
    assert!(rt; answers(alloc, TEXT, 0, Asked::Guards, &STEP_GUARDS)?);
    assert!(rt; answers(alloc, TEXT, 1, Asked::Guards, &[])?);
    Ok(())
}

#[test]
fn overwrites_of_modules(rt: HostRuntime) -> Result<(), Fail> {
    let alloc = rt.alloc();
    assert!(rt; answers(alloc, TEXT, 0, Asked::Overwrites, &STEP_OVERWRITES)?);
    assert!(rt; answers(alloc, TEXT, 1, Asked::Overwrites, &[])?);
    Ok(())
}

#[test]
fn sites_round_loops(rt: HostRuntime) -> Result<(), Fail> {
    let alloc = rt.alloc();
    assert!(rt; answers(alloc, LOOPS, 0, Asked::Guards, &LOOP_GUARDS)?);
    assert!(rt; answers(alloc, LOOPS, 0, Asked::Overwrites, &LOOP_OVERWRITES)?);
    Ok(())
}

#[test]
fn sites_beside_memories(rt: HostRuntime) -> Result<(), Fail> {
    let alloc = rt.alloc();
    assert!(rt; answers(alloc, WORDS, 0, Asked::Guards, &WORD_GUARDS)?);
    assert!(rt; answers(alloc, WORDS, 0, Asked::Overwrites, &WORD_OVERWRITES)?);
    Ok(())
}
