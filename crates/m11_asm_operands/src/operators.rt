//! The operators that unfolding leaves to the assembly, by their names: instructions and directives. (MACRO-11 Language Reference Manual,
//! "Permanent symbol table".)

ghost use Rattle.std.specs.Prelude.{◌≡◌, IfSome, IsTrue, option_map};
ghost use Rattle.m11_base.specs.Instructions.{other_names, rows};
ghost use Rattle.m11_base.specs.Mnemonics.{named_in, or_else};
ghost use Rattle.m11_asm_operands.specs.Directives.{directive_named};
ghost use Rattle.m11_asm_operands.specs.ListedOperations.{has_listed_operation};
ghost use Rattle.m11_asm_rules.specs.Operators as spec;
ghost use Rattle.m11_asm_rules.specs.declared.operators.Operator.TheVariants.{Instruction};

use crate::operations::operation_of;
use m11_asm_rules::{Directive, DirectiveRow, Operator};
use m11_scan::is_same_six;

// The directives, each with its name of six characters.
#[rattlefmt::skip]
const DIRECTIVES: [DirectiveRow; 27] = [
    DirectiveRow { name: *b".WORD ", directive: Directive::Word },
    DirectiveRow { name: *b".BYTE ", directive: Directive::Byte },
    DirectiveRow { name: *b".ASCII", directive: Directive::Ascii },
    DirectiveRow { name: *b".ASCIZ", directive: Directive::Asciz },
    DirectiveRow { name: *b".RAD50", directive: Directive::Rad50 },
    DirectiveRow { name: *b".BLKB ", directive: Directive::Blkb },
    DirectiveRow { name: *b".BLKW ", directive: Directive::Blkw },
    DirectiveRow { name: *b".EVEN ", directive: Directive::Even },
    DirectiveRow { name: *b".ODD  ", directive: Directive::Odd },
    DirectiveRow { name: *b".LIMIT", directive: Directive::Limit },
    DirectiveRow { name: *b".RADIX", directive: Directive::Radix },
    DirectiveRow { name: *b".ASECT", directive: Directive::Asect },
    DirectiveRow { name: *b".CSECT", directive: Directive::Csect },
    DirectiveRow { name: *b".PSECT", directive: Directive::Psect },
    DirectiveRow { name: *b".GLOBL", directive: Directive::Globl },
    DirectiveRow { name: *b".WEAK ", directive: Directive::Weak },
    DirectiveRow { name: *b".TITLE", directive: Directive::Title },
    DirectiveRow { name: *b".IDENT", directive: Directive::Ident },
    DirectiveRow { name: *b".SBTTL", directive: Directive::Sbttl },
    DirectiveRow { name: *b".PAGE ", directive: Directive::Page },
    DirectiveRow { name: *b".LIST ", directive: Directive::List },
    DirectiveRow { name: *b".NLIST", directive: Directive::Nlist },
    DirectiveRow { name: *b".ENABL", directive: Directive::Enabl },
    DirectiveRow { name: *b".DSABL", directive: Directive::Dsabl },
    DirectiveRow { name: *b".NARG ", directive: Directive::Narg },
    DirectiveRow { name: *b".NCHR ", directive: Directive::Nchr },
    DirectiveRow { name: *b".END  ", directive: Directive::End },
];

/// The operator with this six-character name in upper case, padded with blanks: a directive, or else an instruction. None for any other
/// name.
pub fn operator_named(name: &[u8; 6]) -> Option<Operator>
    ensures operator { result ≡ spec.operator_named name.now }
    ensures listed { IfSome result (λ operator. IsTrue (has_listed_operation operator)) }
{
    find_operator(name)
}

fn find_operator(name: &[u8; 6]) -> Option<Operator>
    ensures { result ≡ spec.operator_named name.now }
{
    match directive_of(name) {
        Some(directive) => Some(Operator::Directive(directive)),
        None => instruction_of(name),
    }
}

// The directive with this name, if there is one.
fn directive_of(name: &[u8; 6]) -> Option<Directive>
    ensures { result ≡ directive_named name.now }
{
    // speed: the name of each directive begins with a dot, so most operators needn't be compared with all 27
    if name[0] != b'.' {
        return None;
    }
    let found = DIRECTIVES.iter().find(|row| is_same_six(&row.name, name));
    match found {
        Some(row) => Some(row.directive),
        None => None,
    }
}

// The instruction with this name, if there is one.
fn instruction_of(name: &[u8; 6]) -> Option<Operator>
    ensures { result ≡ option_map Instruction (or_else (named_in rows name.now) (named_in other_names name.now)) }
{
    match operation_of(name) {
        Some(operation) => Some(Operator::Instruction(operation)),
        None => None,
    }
}
