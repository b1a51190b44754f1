//! When branches are taken. (PDP-11/40 Processor Handbook, "Instruction set".)

ghost use Rattle.std.specs.Prelude.{◌≡◌};
ghost use Rattle.m11_cpu_arithmetic.specs.Branches.{is_taken};

use m11_base::{BranchOp, ConditionCodes};

/// Whether a branch is taken with these condition codes. (PDP-11/40 Processor Handbook, "Instruction set": branches.)
#[tactic(auto, unfolding(crate::specs::Branches::is_taken))]
#[inline(always)]
pub fn is_taken(operation: BranchOp, codes: ConditionCodes) -> bool
    ensures { result ≡ is_taken operation codes }
{
    let is_less = codes.negative ^ codes.overflow;
    match operation {
        BranchOp::Br => true,
        BranchOp::Bne => !codes.zero,
        BranchOp::Beq => codes.zero,
        BranchOp::Bge => !is_less,
        BranchOp::Blt => is_less,
        BranchOp::Bgt => !(codes.zero || is_less),
        BranchOp::Ble => codes.zero || is_less,
        BranchOp::Bpl => !codes.negative,
        BranchOp::Bmi => codes.negative,
        BranchOp::Bhi => !(codes.carry || codes.zero),
        BranchOp::Blos => codes.carry || codes.zero,
        BranchOp::Bvc => !codes.overflow,
        BranchOp::Bvs => codes.overflow,
        BranchOp::Bcc => !codes.carry,
        BranchOp::Bcs => codes.carry,
    }
}
