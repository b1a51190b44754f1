//! Entries of the global symbol directory. (RT-11 Volume and File Formats Manual, "Object file
//! format", GSD block.)

ghost use Rattle.std.specs.Prelude.{◌≡◌, ◌+◌, ◌≤◌, ◌++◌};
ghost use Rattle.arrayvec.specs.ArrayVec.{array_vec_len};
ghost use Rattle.m11_base.specs.Rad50.{IsName};
ghost use Rattle.m11_obj_blocks.specs.Frames.{word_bytes, content_limit};
ghost use Rattle.m11_obj.specs.Gsd.{kind_code, name_bytes, entry_bytes, EntryFits};

use arrayvec::ArrayVec;
use byteorder::{ByteOrder, LittleEndian};
use m11_base::{Name, blank_name};
use m11_obj_blocks::Block;

/// The kind of an entry, by its type byte.
#[derive(Clone, Copy, PartialEq, Eq)]
pub enum GsdKind {
    /// 0: the module's name.
    ModuleName,
    /// 1: a control section, the older form of a program section.
    ControlSection,
    /// 2: an internal symbol.
    InternalSymbol,
    /// 3: the transfer address, in the named section.
    TransferAddress,
    /// 4: a global symbol.
    GlobalSymbol,
    /// 5: a program section.
    ProgramSection,
    /// 6: the identification of the module.
    Identification,
}

impl GsdKind {
    // The type byte of an entry of this kind.
    pub(crate) fn code(self) -> u8
        ensures { result ≡ kind_code self }
    {
        match self {
            GsdKind::ModuleName => 0,
            GsdKind::ControlSection => 1,
            GsdKind::InternalSymbol => 2,
            GsdKind::TransferAddress => 3,
            GsdKind::GlobalSymbol => 4,
            GsdKind::ProgramSection => 5,
            GsdKind::Identification => 6,
        }
    }
}

/// One entry: a name, the flags byte, a kind and a value.
#[derive(Clone, Copy, PartialEq, Eq)]
pub struct GsdEntry {
    /// The name. For a transfer address it is the name of its section.
    pub name: Name,
    /// The whole flags byte.
    pub flags: u8,
    /// The kind of the entry.
    pub kind: GsdKind,
    /// A section's size in bytes, a symbol's value, or the offset of the transfer address within its section. Other kinds don't
    /// use it.
    pub value: u16,
}

impl Default for GsdEntry {
    /// The entry of a module with a blank name, which fills unused elements of an array of entries.
    #[inline]
    fn default() -> GsdEntry {
        GsdEntry {
            name: blank_name(),
            flags: 0,
            kind: GsdKind::ModuleName,
            value: 0,
        }
    }
}

/// The entries of a directory record, at most 63. They are stored in an array, not on the heap.
pub type Entries = ArrayVec<GsdEntry, 63>;

// Adds a word to a block's content.
pub(crate) fn add_word(content: &mut Block, word: u16)
    requires { array_vec_len content.old + 2 ≤ content_limit }
    ensures { content.new.items ≡ content.old.items ++ word_bytes word }
{
    let mut bytes = [0; 2];
    LittleEndian::write_u16(&mut bytes, word);
    content.push(bytes[0]);
    content.push(bytes[1]);
}

// Adds a name's two words to a block's content.
pub(crate) fn add_name(content: &mut Block, name: Name)
    requires { array_vec_len content.old + 4 ≤ content_limit }
    ensures bytes { content.new.items ≡ content.old.items ++ name_bytes name }
    ensures fits { IsName name }
{
    let (first, second) = name.words();
    add_word(content, first);
    add_word(content, second);
}

// Adds an entry's eight bytes to a block's content.
pub(crate) fn add_entry(content: &mut Block, entry: &GsdEntry)
    requires { array_vec_len content.old + 8 ≤ content_limit }
    ensures bytes { content.new.items ≡ content.old.items ++ entry_bytes entry.now }
    ensures fits { EntryFits entry.now }
{
    add_name(content, entry.name);
    content.push(entry.flags);
    content.push(entry.kind.code());
    add_word(content, entry.value);
}
