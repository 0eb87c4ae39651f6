//! Both texts of a seed.
ghost use Rattle.std.specs.Prelude.{◌≡◌, IfOk, OnOk, length, string_bytes};
ghost use Rattle.rr_made_input.specs.Draws.{state};
ghost use Rattle.rr_made_input.specs.Made.{made_design, made_table, steps};

use crate::design::design;
use crate::draws::Draws;
use crate::table::table;
use std::alloc::{AllocError, Global};

/// The made input of a seed: a design with one to three faults, and its table of 256 rows.
#[derive(Drop)]
pub struct Input {
    pub design: String,
    pub table: Vec<u8>,
}

/// The steps by which the registers are to count: the first eight draws.
fn steps(alloc: Global, draws: &mut Draws) -> Result<Vec<u8>, AllocError>
    ensures drawn { OnOk result (draws.new.state ≡ state draws.old.state 8) }
    ensures value { IfOk result (λ r. r.items ≡ steps draws.old.state) }
{
    let mut steps = Vec::new(alloc);
    for i in 0..8u64 {
        let step = 1 + draws.draw(254);
        steps.push(step as u8)?;
    }
    Ok(steps)
}

/// The texts of the design and of the table that a seed gives.
pub fn made(alloc: Global, seed: u64) -> Result<Input, AllocError>
    ensures design { IfOk result (λ m. string_bytes m.design ≡ made_design seed) }
    ensures length { IfOk result (λ m. length (string_bytes m.design) ≡ 903) }
    ensures table { IfOk result (λ m. m.table.items ≡ made_table seed) }
{
    let mut draws = Draws { state: seed };
    let right = steps(alloc, &mut draws)?;
    let design = design(alloc, seed, right.as_slice())?;
    let table = table(alloc, seed, right.as_slice(), draws)?;
    Ok(Input { design, table })
}
