//! Layers: boards that own a board and pass its calls on, changed a little; layers stack to any height.
#![tactic(auto)]

mod allowance;
mod pile;
mod renaming;

pub use allowance::Allowance;
pub use pile::{move_block, move_on_pile};
pub use renaming::Renaming;

#[cfg(test)]
mod tests;
