//! The names of modules that are the clock of an order.
ghost use Rattle.std.specs.Prelude.{IfOk, map};
ghost use Rattle.rr_flat.specs.View.{plain_flat};
ghost use Rattle.rr_clock.specs.Clock.{IsClockInput};
ghost use Rattle.rr_clock.specs.Places.{ArePlaces};
ghost use Rattle.rr_clock.specs.View.{plain_place};

use bumpalo::Bump;
use rr_clock::clock_places;
use rr_flat::{Flat, Order};
use rr_syntax::ModulePlace;
use std::alloc::{AllocError, Global};

/// For each module that has instances, in the order of `reached`, the names of its signals that lead to
/// the clock of the order in one of its instances, each once. An order without a clock has none.
pub fn places<'a>(
    alloc: Global,
    flat: &Flat<'a>,
    order: &Order,
    arena: &'a Bump,
) -> Result<&'a [ModulePlace<'a>], AllocError>
    requires input { IsClockInput (plain_flat flat.now) order.now.clock }
    ensures { IfOk result (λ ps. ArePlaces (plain_flat flat.now) order.now.clock (map plain_place ps.now)) }
{
    clock_places(alloc, flat, order.clock, arena)
}
