//! The circuit of one cycle as a type, what it stands for, and its laws. A transition is right where, for
//! every choice among the changes of a design's sites, it gives the settled outputs and the next state of
//! the choice's instance, for every state and row of inputs. No code here makes one, and no table is
//! named. It stands on `rr_circuit`'s circuits and on the definitions of `rr_cycle` and `rr_instance`.
#![tactic(auto)]

mod laws;
mod transition;

pub use laws::cycle_laws;
pub use transition::Transition;
