//! The operators that unfolding leaves to the assembly: directives and instructions. (MACRO-11 Language Reference Manual, "Permanent
//! symbol table".)

use m11_base::Op;

/// A directive that unfolding leaves to the assembly.
#[derive(Clone, Copy)]
pub enum Directive {
    /// `.WORD`
    Word,
    /// `.BYTE`
    Byte,
    /// `.ASCII`
    Ascii,
    /// `.ASCIZ`
    Asciz,
    /// `.RAD50`
    Rad50,
    /// `.BLKB`
    Blkb,
    /// `.BLKW`
    Blkw,
    /// `.EVEN`
    Even,
    /// `.ODD`
    Odd,
    /// `.LIMIT`
    Limit,
    /// `.RADIX`
    Radix,
    /// `.ASECT`
    Asect,
    /// `.CSECT`
    Csect,
    /// `.PSECT`
    Psect,
    /// `.GLOBL`
    Globl,
    /// `.WEAK`
    Weak,
    /// `.TITLE`
    Title,
    /// `.IDENT`
    Ident,
    /// `.SBTTL`
    Sbttl,
    /// `.PAGE`
    Page,
    /// `.LIST`
    List,
    /// `.NLIST`
    Nlist,
    /// `.ENABL`
    Enabl,
    /// `.DSABL`
    Dsabl,
    /// `.NARG`
    Narg,
    /// `.NCHR`
    Nchr,
    /// `.END`
    End,
}

/// A directive and its name.
#[derive(Clone, Copy)]
pub struct DirectiveRow {
    /// Its name of six characters, padded with blanks.
    pub name: [u8; 6],
    /// The directive.
    pub directive: Directive,
}

/// An operator: an instruction or a directive.
#[derive(Clone, Copy)]
pub enum Operator {
    /// An instruction. It needs an even location.
    Instruction(Op),
    /// A directive.
    Directive(Directive),
}
