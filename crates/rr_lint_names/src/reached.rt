//! The modules that have instances.
ghost use Rattle.std.specs.Prelude.{◌≡◌, ◌||◌, ℕ, nat_eq, IfOk, OnOk};
ghost use Rattle.std.specs.List.{list_any};
ghost use Rattle.indexmap.specs.IndexSet.{contains};

use indexmap::IndexSet;
use std::alloc::{AllocError, Global};

/// One number more.
fn add(set: &mut IndexSet<u64>, number: u32) -> Result<(), AllocError>
    ensures { OnOk result ((k : ℕ) → contains nat_eq set.new k ≡ (contains nat_eq set.old k || nat_eq k number)) }
{
    match set.insert(u64::from(number)) {
        Ok(_) => Ok(()),
        Err(_) => Err(AllocError),
    }
}

/// Numbers as a set.
pub fn number_set(alloc: Global, numbers: &[u32]) -> Result<IndexSet<u64>, AllocError>
    ensures { IfOk result (λ set. (k : ℕ) → contains nat_eq set k ≡ list_any (nat_eq k) numbers.now) }
{
    let mut set = IndexSet::new(alloc);
    for number in numbers.iter() {
        add(&mut set, *number)?;
    }
    Ok(set)
}

/// Whether a number is among them.
pub fn has_number(set: &IndexSet<u64>, number: usize) -> bool
    ensures { result ≡ contains nat_eq set.now number }
{
    set.contains(&(number as u64))
}
