//! The flags byte of directory entries. (RT-11 Volume and File Formats Manual, "Object file format",
//! GSD block.)

ghost use Rattle.std.specs.Prelude.{⊤, [], ◌∷◌, codes};

use bitflags::{Flag, Flags, bitflag_items};

/// The attributes of a program section. If a bit is clear, the section has the opposite attribute: CON for `OVERLAID`, RW for
/// `READ_ONLY`, ABS for `RELOCATABLE`, LCL for `GLOBAL`, I for `DATA`. `SAVED` has no opposite.
#[derive(Clone, Copy, PartialEq, Eq)]
pub struct SectionFlags(u8);

bitflag_items! {
    impl SectionFlags: u8 {
        const SAVED = 0o001;
        const OVERLAID = 0o004;
        const READ_ONLY = 0o020;
        const RELOCATABLE = 0o040;
        const GLOBAL = 0o100;
        const DATA = 0o200;
    }
}

impl Flags for SectionFlags {
    type Bits = u8;

    ghost exact = { ⊤ };

    ghost table = { (codes "SAVED", 0o001) ∷ (codes "OVERLAID", 0o004) ∷ (codes "READ_ONLY", 0o020) ∷ (codes "RELOCATABLE", 0o040)
        ∷ (codes "GLOBAL", 0o100) ∷ (codes "DATA", 0o200) ∷ [] };

    ghost set_of = { λ f. f.0 };

    fn flags<'a>() -> &'a [Flag<SectionFlags>] {
        SectionFlags::FLAGS
    }

    fn bits(&self) -> u8 {
        self.0
    }

    fn from_bits_retain(bits: u8) -> SectionFlags {
        SectionFlags(bits)
    }
}

/// The default attributes of sections. (MACRO-11 Language Reference Manual, ".PSECT directive", ".ASECT and .CSECT directives".)
impl SectionFlags {
    /// The attributes of `. ABS.`, which `.ASECT` selects: RW, I, GBL, ABS, OVR.
    pub const OF_ABSOLUTE: SectionFlags = SectionFlags(
        SectionFlags::GLOBAL.0 | SectionFlags::OVERLAID.0,
    );

    /// The attributes of the blank section, and of a section that `.PSECT` names without attributes: RW, I, LCL, REL, CON.
    pub const OF_PROGRAM: SectionFlags = SectionFlags::RELOCATABLE;

    /// The attributes of a section that `.CSECT` names: RW, I, GBL, REL, OVR.
    pub const OF_CONTROL: SectionFlags = SectionFlags(
        SectionFlags::GLOBAL.0 | SectionFlags::RELOCATABLE.0 | SectionFlags::OVERLAID.0,
    );
}

/// The flags of a global symbol. `DEFINED`: this module defines the symbol; if the bit is clear, the module refers to it. `WEAK`: the
/// reference is weak. `RELOCATABLE`: the value is relocated with its section.
#[derive(Clone, Copy, PartialEq, Eq)]
pub struct SymbolFlags(u8);

bitflag_items! {
    impl SymbolFlags: u8 {
        const WEAK = 0o001;
        const DEFINED = 0o010;
        const RELOCATABLE = 0o040;
    }
}

impl Flags for SymbolFlags {
    type Bits = u8;

    ghost exact = { ⊤ };

    ghost table = { (codes "WEAK", 0o001) ∷ (codes "DEFINED", 0o010) ∷ (codes "RELOCATABLE", 0o040) ∷ [] };

    ghost set_of = { λ f. f.0 };

    fn flags<'a>() -> &'a [Flag<SymbolFlags>] {
        SymbolFlags::FLAGS
    }

    fn bits(&self) -> u8 {
        self.0
    }

    fn from_bits_retain(bits: u8) -> SymbolFlags {
        SymbolFlags(bits)
    }
}
