//! The commands of a relocation directory, grouped by the fields that follow their displacement. (RT-11 Volume and File Formats
//! Manual, "Object file format", RLD block.)

ghost use Rattle.std.specs.Prelude.{◌≡◌};
ghost use Rattle.m11_obj.specs.Commands.{constant_target, name_target, both_target, form_in};
ghost use Rattle.m11_obj.specs.Reading.{Gives, row_of, form_of};

use crate::fault::RecordFault;
use crate::relocations::Target;
use m11_base::Name;

/// The commands with a constant and no name.
#[derive(Clone, Copy, PartialEq, Eq)]
pub(crate) enum ConstantCommand {
    Internal,
    InternalDisplaced,
    LocationCounterModification,
}

/// The commands with a name and no constant.
#[derive(Clone, Copy, PartialEq, Eq)]
pub(crate) enum NameCommand {
    Global,
    GlobalDisplaced,
    Section,
    SectionDisplaced,
}

/// The commands with a name and a constant after it.
#[derive(Clone, Copy, PartialEq, Eq)]
pub(crate) enum NameAndConstantCommand {
    GlobalAdditive,
    GlobalAdditiveDisplaced,
    LocationCounterDefinition,
    SectionAdditive,
    SectionAdditiveDisplaced,
}

/// A command of a relocation directory, by the kind of the fields that follow its displacement.
#[derive(Clone, Copy, PartialEq, Eq)]
pub(crate) enum Command {
    ProgramLimits,
    Constant(ConstantCommand),
    Name(NameCommand),
    NameAndConstant(NameAndConstantCommand),
}

impl ConstantCommand {
    #[inline(always)]
    pub(crate) fn target(self, constant: u16) -> Target
        ensures { result ≡ constant_target self constant }
    {
        match self {
            ConstantCommand::Internal => Target::Internal(constant),
            ConstantCommand::InternalDisplaced => Target::InternalDisplaced(constant),
            ConstantCommand::LocationCounterModification => {
                Target::LocationCounterModification(constant)
            }
        }
    }
}

impl NameCommand {
    #[inline(always)]
    pub(crate) fn target(self, name: Name) -> Target
        ensures { result ≡ name_target self name }
    {
        match self {
            NameCommand::Global => Target::Global(name),
            NameCommand::GlobalDisplaced => Target::GlobalDisplaced(name),
            NameCommand::Section => Target::Section(name),
            NameCommand::SectionDisplaced => Target::SectionDisplaced(name),
        }
    }
}

impl NameAndConstantCommand {
    #[inline(always)]
    #[rattlefmt::skip]
    pub(crate) fn target(self, name: Name, constant: u16) -> Target
        ensures { result ≡ both_target self name constant }
    {
        match self {
            NameAndConstantCommand::GlobalAdditive => Target::GlobalAdditive(name, constant),
            NameAndConstantCommand::GlobalAdditiveDisplaced => Target::GlobalAdditiveDisplaced(name, constant),
            NameAndConstantCommand::LocationCounterDefinition => Target::LocationCounterDefinition(name, constant),
            NameAndConstantCommand::SectionAdditive => Target::SectionAdditive(name, constant),
            NameAndConstantCommand::SectionAdditiveDisplaced => Target::SectionAdditiveDisplaced(name, constant),
        }
    }
}

// The command with this code. Faults: `Complex` for octal 17, and `UnknownRelocation` for any other code without a command.
#[tactic(auto, unfolding(crate::specs::Reading::row_of))]
#[inline(always)]
fn row_of(code: u8) -> Result<Command, RecordFault>
    ensures { Gives form_in result (row_of code) }
{
    match code {
        0o1 => Ok(Command::Constant(ConstantCommand::Internal)),
        0o2 => Ok(Command::Name(NameCommand::Global)),
        0o3 => Ok(Command::Constant(ConstantCommand::InternalDisplaced)),
        0o4 => Ok(Command::Name(NameCommand::GlobalDisplaced)),
        0o5 => Ok(Command::NameAndConstant(NameAndConstantCommand::GlobalAdditive)),
        0o6 => Ok(Command::NameAndConstant(NameAndConstantCommand::GlobalAdditiveDisplaced)),
        0o7 => Ok(Command::NameAndConstant(NameAndConstantCommand::LocationCounterDefinition)),
        0o10 => Ok(Command::Constant(ConstantCommand::LocationCounterModification)),
        0o11 => Ok(Command::ProgramLimits),
        0o12 => Ok(Command::Name(NameCommand::Section)),
        0o14 => Ok(Command::Name(NameCommand::SectionDisplaced)),
        0o15 => Ok(Command::NameAndConstant(NameAndConstantCommand::SectionAdditive)),
        0o16 => Ok(Command::NameAndConstant(NameAndConstantCommand::SectionAdditiveDisplaced)),
        0o17 => Err(RecordFault::Complex),
        _ => Err(RecordFault::UnknownRelocation),
    }
}

// The command with this code, in its word form or its byte form. Faults: those of `row_of`, and `UnknownRelocation` for the byte
// form of codes 7 to octal 11, which have none.
#[tactic(auto, unfolding(crate::specs::Reading::form_of))]
#[inline(always)]
pub(crate) fn command_of(is_byte: bool, code: u8) -> Result<Command, RecordFault>
    ensures { Gives form_in result (form_of is_byte code) }
{
    if is_byte && 0o7 <= code && code <= 0o11 {
        return Err(RecordFault::UnknownRelocation);
    }
    row_of(code)
}
