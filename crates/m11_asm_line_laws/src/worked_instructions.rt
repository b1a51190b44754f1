//! Instructions worked by hand. (PDP-11/40 Processor Handbook, "Instruction set" and "Addressing modes".)

ghost use Rattle.std.specs.Prelude.{◌≡◌, map};
ghost use Rattle.m11_asm_line_laws.specs.InstructionRows.{branch_rows, location_rows, missing_rows, operand_rows, register_rows};
ghost use Rattle.m11_asm_line_laws.specs.Worked.{found, expected};

/// The words and flags of operands in registers, at the addresses in registers, and in the words after the code word are those worked by
/// hand.
pub fn operands_are_as_worked()
    ensures { map found operand_rows ≡ map expected operand_rows }
{}

/// The words and flags of relative and absolute operands, and of one that only a later line makes a register, are those worked by hand.
pub fn relative_operands_are_as_worked()
    ensures { map found location_rows ≡ map expected location_rows }
{}

/// The words and flags of missing operands and registers, of operands without their `)`, and of text that is left over are those worked by
/// hand.
pub fn missing_operands_are_as_worked()
    ensures { map found missing_rows ≡ map expected missing_rows }
{}

/// The words and flags of registers whose expressions have names that aren't firm, and of `%` before a register or a location, are those
/// worked by hand.
pub fn registers_are_as_worked()
    ensures { map found register_rows ≡ map expected register_rows }
{}

/// The words and flags of branches, of SOB, and of MARK, EMT and TRAP with their numbers are those worked by hand.
pub fn branches_are_as_worked()
    ensures { map found branch_rows ≡ map expected branch_rows }
{}
