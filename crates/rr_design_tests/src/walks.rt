//! Flat designs of texts, with their facts by numbers of tokens, or their first fault and its byte, by
//! the rules of IEEE 1364-2005 section 12 and of the profile.
use crate::texts::design_of;
use bumpalo::Bump;
use rr_elaborate::DesignFault;
use rr_expr::first_token;
use rr_flat::{Block, Driver, Flat, Initial, Part, Side, Signal};
use std::alloc::{AllocError, Global};
use std::test::Fail;

/// A text, its top, and what its flat design is.
pub(crate) type Case = (&'static str, &'static Option<&'static str>, &'static str);

/// Instances, with connections by name and by position.
const CONNECTIONS: [Case; 3] = [
    (
        "module inc(input [3:0] a, output [3:0] y); assign y = a + 4'd2; endmodule module m(input [3:0] a, output [3:0] y); wire [3:0] t; inc u0(.a(a), .y(t)); inc u1(.a(t), .y(y)); endmodule",
        &None,
        "0.a:4 0.y:4 0.t:4 1.a:4 1.y:4 2.a:4 2.y:4 | 21/1<23/1@21 #3<62/0@62 68/0<#4@68 21/2<23/2@21 #5<78/0@78 84/0<#6@84 | d0 d1 d2 d3 d4 d5 | | 0 | 1 | 1 0 0 | 0 1 | 29",
    ),
    (
        "module m(input a, output y); n u(a, y); endmodule module n(input c, output z, input e); assign z = c; endmodule",
        &None,
        "0.a:1 0.y:1 1.c:1 1.z:1 1.e:1 | 33/1<35/1@33 #2<13/0@13 15/0<#3@15 | d0 d1 d2 | | 0 | 1 | 0 1 | 0 1 | 1",
    ),
    (
        "module n(input c, output z); assign z = c; endmodule module m(input a, output y); wire t; n u(a, t), v(t, y); endmodule",
        &None,
        "0.a:1 0.y:1 0.t:1 1.c:1 1.z:1 2.c:1 2.z:1 | 11/1<13/1@11 #3<32/0@32 34/0<#4@34 11/2<13/2@11 #5<39/0@39 41/0<#6@41 | d0 d1 d2 d3 d4 d5 | | 0 | 1 | 1 0 0 | 0 1 | 17",
    ),
];

/// Connections that are open, left out, or no target.
const OPEN_CONNECTIONS: [Case; 2] = [
    (
        "module n(input c, output z); assign z = c; endmodule module m(output y); n u(.c(), .z(y)); n v(.z(y)); n w(); endmodule",
        &None,
        "0.y:1 1.c:1 1.z:1 2.c:1 2.z:1 3.c:1 3.z:1 | 11/1<13/1@11 34/0<#2@34 11/2<13/2@11 44/0<#4@44 11/3<13/3@11 | d0 d1 d2 d3 d4 | | | 0 | 1 0 0 0 | 0 1 | 17",
    ),
    (
        "module n(output z); assign z = 1'b0; endmodule module m(input a, output y); n u(.z(a + y)); endmodule",
        &None,
        "0.a:1 0.y:1 1.z:1 | 8/1<10/1@8 29/0<#2@29 | d0 d1 | | 0 | 1 | 1 0 | 0 1 | 14",
    ),
];

/// Overrides by name, by place, and by a parameter of the parent.
const OVERRIDES: [Case; 3] = [
    (
        "module n #(parameter W = 2, V = 3)(input [W:0] c); wire [V:0] t; endmodule module m; n #(.V(7)) u(); n #(.W(0), .V()) v(); n w(); endmodule",
        &None,
        "1.c:3 1.t:8 2.c:1 2.t:4 3.c:3 3.t:4 | | | | | | 1 0 0 0 | 0 1 | 33",
    ),
    (
        "module n #(parameter W = 2)(input [W:0] c); localparam L = W + 1; parameter V = 3; wire [V:0] t; wire [L:0] s; endmodule module m; n #(4, 5) u(); n #() v(); endmodule",
        &None,
        "1.c:5 1.t:6 1.s:6 2.c:3 2.t:4 2.s:4 | | | | | | 1 0 0 | 0 1 | 49",
    ),
    (
        "module n #(parameter W = 1)(input [W:0] c); endmodule module k #(parameter W = 2)(input c); n #(.W(W + 1)) u(); endmodule module m; k #(.W(4)) u(); endmodule",
        &None,
        "1.c:1 2.c:6 | | | | | | 2 1 0 | 0 1 2 | 51",
    ),
];

/// Nets with values, assignments and procedures, in the order of the walk.
const ITEMS: [Case; 3] = [
    (
        "module m(input a, output y); wire [3:0] t = a, s; assign y = t[0], s = 4'd1; wire r = y; endmodule",
        &None,
        "0.a:1 0.y:1 0.t:4 0.s:4 0.r:1 | #2<18/0@16 23/0<25/0@23 30/0<32/0@30 #4<37/0@35 | d0 d1 d2 d3 | | 0 | 1 | 0 | 0 | 1",
    ),
    (
        "module m(input k, input r, input a, output reg y); reg t, s; always @(posedge k or negedge r) y <= t; assign t = a; always @* t = a; always @(a or t) s = t + a; endmodule",
        &None,
        "0.k:1 0.r:1 0.a:1 0.y:1 0.t:1 0.s:1 | 36/0<38/0@36 | c0 d0 b0 b1 | 22/0+2 40/0+0 47/0+0 | 0 1 2 | 3 | 0 | 0 | 1",
    ),
    (
        "module m; parameter K = 1; reg y; always @(posedge K) y <= K; endmodule",
        &None,
        "0.y:1 | | c0 | 11/0+1 | | | 0 | 0 | 1",
    ),
];

/// The last module that stands in none, and designs without one.
const TOPS: [Case; 6] = [
    (
        "module a(output y); assign y = 1'b1; endmodule module b; c u(); endmodule module c; endmodule module d; endmodule module e; endmodule",
        &None,
        "| | | | | | 4 | 4 | 31",
    ),
    (
        "module a(output y); assign y = 1'b1; endmodule module b; c u(); endmodule module c; endmodule module d; endmodule module e; endmodule",
        &Some("b"),
        "| | | | | | 1 2 | 1 2 | 14",
    ),
    ("", &None, "NoTop"),
    ("module m; endmodule", &Some("n"), "NoTop"),
    (
        "module a; b u(); endmodule module b; a u(); endmodule",
        &None,
        "NoTop",
    ),
    (
        "module m; endmodule module n; x u(); endmodule module m; endmodule",
        &Some("z"),
        "NameTwice(54)",
    ),
];

/// Sixteen levels and seventeen, 256 instances and 257, and 65,664 bits.
const LIMITS: [Case; 5] = [
    (
        "module m0; m1 u(); endmodule module m1; m2 u(); endmodule module m2; m3 u(); endmodule module m3; m4 u(); endmodule module m4; m5 u(); endmodule module m5; m6 u(); endmodule module m6; m7 u(); endmodule module m7; m8 u(); endmodule module m8; m9 u(); endmodule module m9; m10 u(); endmodule module m10; m11 u(); endmodule module m11; m12 u(); endmodule module m12; m13 u(); endmodule module m13; m14 u(); endmodule module m14; m15 u(); endmodule module m15; endmodule",
        &Some("m0"),
        "| | | | | | 0 1 2 3 4 5 6 7 8 9 10 11 12 13 14 15 | 0 1 2 3 4 5 6 7 8 9 10 11 12 13 14 15 | 1",
    ),
    (
        "module m0; m1 u(); endmodule module m1; m2 u(); endmodule module m2; m3 u(); endmodule module m3; m4 u(); endmodule module m4; m5 u(); endmodule module m5; m6 u(); endmodule module m6; m7 u(); endmodule module m7; m8 u(); endmodule module m8; m9 u(); endmodule module m9; m10 u(); endmodule module m10; m11 u(); endmodule module m11; m12 u(); endmodule module m12; m13 u(); endmodule module m13; m14 u(); endmodule module m14; m15 u(); endmodule module m15; m16 u(); endmodule module m16; endmodule",
        &Some("m0"),
        "TooMany(Depth, 17)",
    ),
    (
        "module a; endmodule module b; a u0(), u1(), u2(), u3(), u4(), u5(), u6(), u7(), u8(), u9(), u10(), u11(), u12(), u13(), u14(), u15(); endmodule module c; b u0(), u1(), u2(), u3(), u4(), u5(), u6(), u7(), u8(), u9(), u10(), u11(), u12(), u13(), u14(); endmodule",
        &Some("c"),
        "| | | | | | 2 1 0 0 0 0 0 0 0 0 0 0 0 0 0 0 0 0 1 0 0 0 0 0 0 0 0 0 0 0 0 0 0 0 0 1 0 0 0 0 0 0 0 0 0 0 0 0 0 0 0 0 1 0 0 0 0 0 0 0 0 0 0 0 0 0 0 0 0 1 0 0 0 0 0 0 0 0 0 0 0 0 0 0 0 0 1 0 0 0 0 0 0 0 0 0 0 0 0 0 0 0 0 1 0 0 0 0 0 0 0 0 0 0 0 0 0 0 0 0 1 0 0 0 0 0 0 0 0 0 0 0 0 0 0 0 0 1 0 0 0 0 0 0 0 0 0 0 0 0 0 0 0 0 1 0 0 0 0 0 0 0 0 0 0 0 0 0 0 0 0 1 0 0 0 0 0 0 0 0 0 0 0 0 0 0 0 0 1 0 0 0 0 0 0 0 0 0 0 0 0 0 0 0 0 1 0 0 0 0 0 0 0 0 0 0 0 0 0 0 0 0 1 0 0 0 0 0 0 0 0 0 0 0 0 0 0 0 0 1 0 0 0 0 0 0 0 0 0 0 0 0 0 0 0 0 | 0 1 2 | 74",
    ),
    (
        "module a; endmodule module b; a u0(), u1(), u2(), u3(), u4(), u5(), u6(), u7(), u8(), u9(), u10(), u11(), u12(), u13(), u14(), u15(); endmodule module c; b u0(), u1(), u2(), u3(), u4(), u5(), u6(), u7(), u8(), u9(), u10(), u11(), u12(), u13(), u14(); a v(); endmodule",
        &Some("c"),
        "TooMany(Instances, 257)",
    ),
    (
        "module a; wire [127:0] x, y, z; endmodule module b; a u0(), u1(), u2(), u3(), u4(), u5(), u6(), u7(), u8(), u9(), u10(), u11(), u12(), u13(), u14(), u15(); endmodule module c; b u0(), u1(), u2(), u3(), u4(), u5(), u6(), u7(), u8(), u9(), u10(); endmodule",
        &Some("c"),
        "TooMany(FlatBits, 65664)",
    ),
];

/// Faults of instances.
const INSTANCES: [Case; 8] = [
    (
        "module m(output y); n u(y); endmodule",
        &None,
        "UnknownModule(20)",
    ),
    (
        "module m(output y); m u(y); endmodule",
        &Some("m"),
        "SelfInstance(20)",
    ),
    (
        "module a; b u(); endmodule module b; c u(); endmodule module c; a u(); endmodule",
        &Some("a"),
        "SelfInstance(64)",
    ),
    (
        "module n; endmodule module m; n u(); n u(); endmodule",
        &None,
        "NameTwice(39)",
    ),
    (
        "module n; endmodule module m; n t(); wire t; endmodule",
        &None,
        "NameTwice(32)",
    ),
    (
        "module n; endmodule module m(output y); assign y = u; n u(); endmodule",
        &None,
        "UnknownName(51)",
    ),
    (
        "module n(output z); assign z = q; endmodule module m(output y); n u(y); assign y = r; endmodule",
        &None,
        "UnknownName(31)",
    ),
    (
        "module m(input a); m #(.B(c)) u(.d(e)); endmodule",
        &Some("m"),
        "SelfInstance(19)",
    ),
];

/// Faults of the settings of instances.
const MISMATCHES: [Case; 10] = [
    (
        "module n(input a); endmodule module m(output y); n u(.b(y)); endmodule",
        &None,
        "PortMismatch(54)",
    ),
    (
        "module n(input a); endmodule module m(output y); n u(.a(y), .a()); endmodule",
        &None,
        "PortMismatch(61)",
    ),
    (
        "module n(input a); endmodule module m(output y); n u(y, y + y, y); endmodule",
        &None,
        "PortMismatch(56)",
    ),
    (
        "module n; localparam W = 1; endmodule module m; n #(.W(2)) u(); endmodule",
        &None,
        "PortMismatch(53)",
    ),
    (
        "module n; localparam W = 1; parameter V = 1; endmodule module m; n #(2, 3) u(); endmodule",
        &None,
        "PortMismatch(72)",
    ),
    (
        "module n #(parameter W = 1); endmodule module m; n #(.W(2), .W(3)) u(); endmodule",
        &None,
        "PortMismatch(61)",
    ),
    (
        "module n #(parameter W = 1); wire V; endmodule module m; n #(.V(2), .V(3)) u(); endmodule",
        &None,
        "UnknownName(62)",
    ),
    (
        "module n #(parameter W = 1); endmodule module m(input a); n #(a) u(.z(b)); endmodule",
        &None,
        "NotConstant(62)",
    ),
    (
        "module n(input a); endmodule module m; n u(.b(q), .a(r)); endmodule",
        &None,
        "PortMismatch(44)",
    ),
    (
        "module n(input a); endmodule module m; n u(.a(q), .b(r)); endmodule",
        &None,
        "UnknownName(46)",
    ),
];

/// Faults of expressions.
const EXPRESSIONS: [Case; 8] = [
    (
        "module m(output y); assign y = b; endmodule",
        &None,
        "UnknownName(31)",
    ),
    (
        "module m; assign q = r; endmodule",
        &None,
        "UnknownName(17)",
    ),
    (
        "module m(input a, output y); assign y = a[0]; endmodule",
        &None,
        "BadRange(40)",
    ),
    (
        "module m(output y); wire [127:0] a; assign y = a[0 +: 129]; endmodule",
        &None,
        "TooWide(47, 129)",
    ),
    (
        "module m(output reg y); always @(posedge k) y <= q; endmodule",
        &None,
        "UnknownName(41)",
    ),
    (
        "module m(output reg y); always @(k or y) y = q; endmodule",
        &None,
        "UnknownName(33)",
    ),
    (
        "module n; endmodule module m(output reg y); n u(); always @(posedge u) y <= y; endmodule",
        &None,
        "UnknownName(68)",
    ),
    ("module m; wire w = q; endmodule", &None, "UnknownName(19)"),
];

/// Starting values of declarations (section 6.2.1), and of instances with parameters.
const STARTS: [Case; 4] = [
    (
        "module m(output reg [7:0] q = 4'd15 + 4'd1); reg signed [7:0] a = 4'sd15; reg [3:0] b = 4'b1x01, c, d = 9 / 2; endmodule",
        &None,
        "0.q:8=16 0.a:8=255 0.b:4=9 0.c:4 0.d:4=4 | | | | | 0 | 0 | 0 | 1",
    ),
    (
        "module m(q); output q; reg q = 1'b1; endmodule",
        &None,
        "0.q:1=1 | | | | | 0 | 0 | 0 | 1",
    ),
    (
        "module m; reg [7:0] a = {W{1'b1}}; reg signed [3:0] b = -W; localparam W = 5; endmodule",
        &None,
        "0.a:8=31 0.b:4=11 | | | | | | 0 | 0 | 1",
    ),
    (
        "module n #(parameter P = 3)(output reg [3:0] q = P); endmodule module m; n u(); n #(.P(9)) v(); n #(20) w(); endmodule",
        &None,
        "1.q:4=3 2.q:4=9 3.q:4=4 | | | | | | 1 0 0 0 | 0 1 | 24",
    ),
];

/// `initial` items (section 9.9.1): of the values of one variable the last one counts.
const INITIALS: [Case; 4] = [
    (
        "module m; reg [3:0] a = 4'd1, b = 4'd2, c = 4'd3; initial begin a = 4'd5; b = 4'd6; ; begin a = 4'd7; end end endmodule",
        &None,
        "0.a:4=7 0.b:4=6 0.c:4=3 | | i0 | 21/0 | | | 0 | 0 | 1",
    ),
    (
        "module m(output y); initial a = 2'd1; reg [1:0] a; assign y = a[0]; initial a = 2'd2; initial ; endmodule",
        &None,
        "0.y:1 0.a:2=2 | 21/0<23/0@21 | i0 d0 i1 i2 | 7/0 28/0 33/0 | | 0 | 0 | 0 | 1",
    ),
    (
        "module n #(parameter P = 1)(output reg [1:0] q); initial q = P + 1; endmodule module m; n u(); n #(.P(6)) v(); endmodule",
        &None,
        "1.q:2=2 2.q:2=3 | | i0 i1 | 20/1 20/2 | | | 1 0 0 | 0 1 | 29",
    ),
    (
        "module m; reg [7:0] a; integer i; initial begin a = 4'sd15; i = -1; end endmodule",
        &None,
        "0.a:8=255 0.i:32=4294967295 | | i0 | 14/0 | | | 0 | 0 | 1",
    ),
];

/// Faults of starting values.
const FAULTS_OF_STARTS: [Case; 8] = [
    (
        "module m(output reg q = a, input a);wire [128:0] w;endmodule",
        &None,
        "NotConstant(24)",
    ),
    (
        "module m;reg [3:0] a = b[0], b;endmodule",
        &None,
        "NotConstant(23)",
    ),
    (
        "module n;endmodule module m;n u();reg a = u;endmodule",
        &None,
        "UnknownName(42)",
    ),
    ("module m;reg a;reg a = x;endmodule", &None, "NameTwice(19)"),
    (
        "module m(output [3:0] q);reg [2:0] q = x;endmodule",
        &None,
        "BadRange(35)",
    ),
    (
        "module m;reg a = {129{1'b1}};endmodule",
        &None,
        "TooWide(17, 129)",
    ),
    (
        "module m;parameter P = 1;reg a = P[0:1];endmodule",
        &None,
        "BadRange(33)",
    ),
    (
        "module n;reg a = b;endmodule module m;n u();reg a = c;endmodule",
        &None,
        "UnknownName(52)",
    ),
];

/// Faults of `initial` items.
const FAULTS_OF_INITIALS: [Case; 7] = [
    (
        "module m(input a, output reg y);initial y = a;endmodule",
        &None,
        "NotConstant(44)",
    ),
    (
        "module m(output reg y);initial y = x;endmodule",
        &None,
        "UnknownName(35)",
    ),
    ("module m;initial x = y;endmodule", &None, "UnknownName(17)"),
    (
        "module m;initial x = 1'b0;reg a = y;endmodule",
        &None,
        "UnknownName(34)",
    ),
    (
        "module m;reg a;initial begin a = 1'b0; a = a; end initial b = a;endmodule",
        &None,
        "NotConstant(43)",
    ),
    (
        "module n;endmodule module m;n u();initial u = 1'b0;endmodule",
        &None,
        "UnknownName(42)",
    ),
    (
        "module m(output reg y);initial y = {2{1'b1}} + {129{1'b1}};endmodule",
        &None,
        "TooWide(47, 129)",
    ),
];

/// Number of the instance, name, index of the word if it is one, and width of each signal, and its starting
/// value where that is not 0.
fn signals_told(text: &mut String, signals: &[Signal], starts: &[u128]) -> Result<(), AllocError> {
    for (s, start) in signals.iter().zip(starts.iter()) {
        write!(text, "{}.{}", s.instance, s.name)?;
        if let Some(index) = s.word {
            write!(text, "[{index}]")?;
        }
        write!(text, ":{}", s.width)?;
        if *start != 0 {
            write!(text, "={start}")?;
        }
        write!(text, " ")?;
    }
    Ok(())
}

/// The number of a signal, or the first token of an expression and the number of its scope.
fn side_told(text: &mut String, side: &Side) -> Result<(), AllocError> {
    match side {
        Side::Whole(id) => write!(text, "#{id}"),
        Side::Text { expr, scope } => {
            let token = first_token(expr);
            write!(text, "{token}/{scope}")
        }
    }
}

fn drivers_told(text: &mut String, drivers: &[Driver]) -> Result<(), AllocError> {
    for driver in drivers.iter() {
        let token = driver.token;
        side_told(text, &driver.target)?;
        write!(text, "<")?;
        side_told(text, &driver.value)?;
        write!(text, "@{token} ")?;
    }
    Ok(())
}

fn walk_told(text: &mut String, walk: &[Part]) -> Result<(), AllocError> {
    for part in walk.iter() {
        match part {
            Part::Driver(k) => write!(text, "d{k} ")?,
            Part::Clocked(k) => write!(text, "c{k} ")?,
            Part::Combinational(k) => write!(text, "b{k} ")?,
            Part::Initial(k) => write!(text, "i{k} ")?,
        }
    }
    Ok(())
}

/// The token, the number of the scope and the number of edges of each block.
fn blocks_told(text: &mut String, blocks: &[Block]) -> Result<(), AllocError> {
    for block in blocks.iter() {
        write!(
            text,
            "{}/{}+{} ",
            block.token,
            block.scope,
            block.edges.len()
        )?;
    }
    Ok(())
}

/// The token and the number of the scope of each `initial` item.
fn initials_told(text: &mut String, initials: &[Initial]) -> Result<(), AllocError> {
    for initial in initials.iter() {
        write!(text, "{}/{} ", initial.token, initial.scope)?;
    }
    Ok(())
}

fn numbers_told(text: &mut String, numbers: &[u32]) -> Result<(), AllocError> {
    write!(text, "| ")?;
    for number in numbers.iter() {
        write!(text, "{number} ")?;
    }
    Ok(())
}

/// Signals, drivers, walk, clocked and combinational blocks, `initial` items, inputs, outputs, owners,
/// modules that are reached, and the token of the top.
fn flat_told(text: &mut String, flat: &Flat) -> Result<(), AllocError> {
    signals_told(text, flat.signals.as_slice(), flat.starts.as_slice())?;
    write!(text, "| ")?;
    drivers_told(text, flat.drivers.as_slice())?;
    write!(text, "| ")?;
    walk_told(text, flat.walk.as_slice())?;
    write!(text, "| ")?;
    blocks_told(text, flat.clocked.as_slice())?;
    blocks_told(text, flat.combinational.as_slice())?;
    initials_told(text, flat.initials.as_slice())?;
    numbers_told(text, flat.inputs.as_slice())?;
    numbers_told(text, flat.outputs.as_slice())?;
    numbers_told(text, flat.owners.as_slice())?;
    numbers_told(text, flat.reached.as_slice())?;
    write!(text, "| {}", flat.top)
}

/// What the flat design of a source text is.
fn told(alloc: Global, text: &str, top: Option<&str>) -> Result<String, AllocError> {
    let arena = Bump::new(alloc);
    match design_of(alloc, text, top, &arena) {
        Err(DesignFault::Flaw(fault)) => format!(in alloc; "{fault:?}"),
        Err(_) => Ok(String::new(alloc)),
        Ok(design) => {
            let mut text = String::new(alloc);
            flat_told(&mut text, &design.flat)?;
            Ok(text)
        }
    }
}

/// The place of the first case that is told otherwise.
fn first_wrong(alloc: Global, cases: &[Case]) -> Result<Option<usize>, AllocError> {
    for (place, case) in cases.iter().enumerate() {
        if told(alloc, case.0, *case.1)?.as_str() != case.2 {
            return Ok(Some(place));
        }
    }
    Ok(None)
}

/// Fails at the first case of these tables that is told otherwise.
pub(crate) fn all_right(alloc: Global, tables: &[&[Case]]) -> Result<(), Fail> {
    for (table, cases) in tables.iter().enumerate() {
        if let Some(place) = first_wrong(alloc, cases)? {
            return Err(Fail::new(format_args!("case {place} of table {table}")));
        }
    }
    Ok(())
}

#[test]
fn flat_designs(rt: HostRuntime) -> Result<(), Fail> {
    all_right(
        rt.alloc(),
        &[
            &CONNECTIONS,
            &OPEN_CONNECTIONS,
            &OVERRIDES,
            &ITEMS,
            &TOPS,
            &LIMITS,
            &INSTANCES,
            &MISMATCHES,
            &EXPRESSIONS,
        ],
    )
}

#[test]
fn starting_values(rt: HostRuntime) -> Result<(), Fail> {
    all_right(
        rt.alloc(),
        &[&STARTS, &INITIALS, &FAULTS_OF_STARTS, &FAULTS_OF_INITIALS],
    )
}
