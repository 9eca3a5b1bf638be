//! The operands of instructions: each type holds only values that fit its field.

mod branch;
mod fence;
mod jump;
mod register;
mod shift;
mod signed;
mod upper;

pub use branch::BranchOffset;
pub use fence::FenceBits;
pub use jump::JumpOffset;
pub use register::Reg;
pub use shift::ShiftAmount;
pub use signed::Immediate;
pub use upper::UpperImmediate;
