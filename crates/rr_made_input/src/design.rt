//! The text of the design.
ghost use Rattle.std.specs.Prelude.{◌≡◌, ◌<◌, ◌∷◌, [], ◌++◌, ◌+◌, ◌%◌, if◌then◌else◌, nat_lt, IfOk, string_bytes};
ghost use Rattle.rr_made_input.specs.Made.{hex_digit, made_design, register_text, steps};

use std::alloc::{AllocError, Global};

/// The head of the design, with its ports.
const HEAD: &str =
    "module made(input clk, input rst, input en, output reg [7:0] r0, output reg [7:0] r1, output reg [7:0] r2, output reg [7:0] r3, output reg [7:0] r4, output reg [7:0] r5, output reg [7:0] r6, output reg [7:0] r7);\n";

/// The hexadecimal digit of a value below 16.
fn digit(value: u64) -> &'static str
    requires { value < 16 }
    ensures { result.now ≡ hex_digit value ∷ [] }
{
    match value {
        0 => "0",
        1 => "1",
        2 => "2",
        3 => "3",
        4 => "4",
        5 => "5",
        6 => "6",
        7 => "7",
        8 => "8",
        9 => "9",
        10 => "a",
        11 => "b",
        12 => "c",
        13 => "d",
        14 => "e",
        _ => "f",
    }
}

/// The lines of a register that counts by a step below 256.
fn register(alloc: Global, i: u64, step: u64) -> Result<String, AllocError>
    requires { step < 256 }
    ensures { IfOk result (λ text. string_bytes text ≡ register_text i step) }
{
    let high = digit(step / 16);
    let low = digit(step % 16);
    format!(in alloc;
        "  always @(posedge clk)\n    if (rst) r{i} <= 8'h00;\n    else if (en) r{i} <= r{i} + 8'h{high}{low};\n"
    )
}

/// The step that the design has in place of the right one: one more in the first registers.
fn written(seed: u64, i: u64, step: u64) -> u64
    requires { step < 255 }
    ensures value { result ≡ (if nat_lt i (1 + seed % 3) then step + 1 else step) }
    ensures small { result < 256 }
{
    if i < 1 + seed % 3 { step + 1 } else { step }
}

/// The design of a seed, whose right steps are these.
pub(crate) fn design(alloc: Global, seed: u64, right: &[u8]) -> Result<String, AllocError>
    requires { right.now ≡ steps seed }
    ensures { IfOk result (λ text. string_bytes text ≡ made_design seed) }
{
    let mut text = String::new(alloc);
    text.push_str(HEAD)?;
    for i in 0..8u64 {
        let lines = register(alloc, i, written(seed, i, u64::from(right[i as usize])))?;
        text.push_str(lines.as_str())?;
    }
    text.push_str("endmodule\n")?;
    Ok(text)
}
