//! Operands in lines of a disassembly.

ghost use Rattle.std.specs.Prelude.{◌≡◌, ℕ, ◌+◌, ◌++◌, true, List, drop, length};
ghost use Rattle.std.specs.List.{AllByRecursion};
ghost use Rattle.m11_base.specs.Devices.{Bytes};
ghost use Rattle.m11_base_disassembly.specs.Arguments.{Argument, operand_meant};
ghost use Rattle.m11_base_disassembly.specs.declared.symbols.Symbol.{Symbol};
ghost use Rattle.m11_asm_dump_laws.specs.Texts.{argument_text};
ghost use Rattle.m11_scan_expressions.specs.Expressions.{KnownSymbols};
ghost use Rattle.m11_asm_rules.specs.Codes.{LineContext, operand_of};
ghost use Rattle.m11_asm_rules.specs.Operands.{form_of, operand_at, read};
ghost use Rattle.m11_asm_dump_laws.specs.Knowledge.{IsSpelled, KnowsRegisters, TakesNoRegister};
ghost use Rattle.m11_asm_dump_laws.specs.Operands.{IsWithinWord, ends_operand, operand_written};

/// Each operand of a disassembly, in any column of a line, with a comma or nothing after it, is read up to its end as the operand that it is
/// written as, without a flag. Its mode and its register are those that it means. An address may be written as the name of a symbol that has
/// just this value.
#[tactic(auto, using(crate::proofs::ReadOperands::argument_read, crate::proofs::Forms::argument_is_meant))]
pub fn operands_are_read_as_they_are_written()
    ensures operand { (symbols : List Symbol) (argument : Argument) (rest line : Bytes) (column : ℕ) → AllByRecursion IsSpelled symbols
        → ends_operand rest ≡ true → drop column line ≡ argument_text symbols argument ++ rest
        → operand_at line column ≡ read (operand_written symbols argument) (column + length (argument_text symbols argument)) 0 }
    ensures meant { (symbols : List Symbol) (firm : KnownSymbols) (context : LineContext) (argument : Argument)
        → AllByRecursion IsSpelled symbols → TakesNoRegister symbols firm → KnowsRegisters context.known → IsWithinWord argument
        → operand_of context (form_of firm (operand_written symbols argument)) ≡ operand_meant argument }
{}
