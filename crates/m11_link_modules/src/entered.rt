//! The sections that a module has entered. (RT-11 Volume and File Formats Manual, "Object file format", GSD block.)

ghost use Rattle.std.specs.Prelude.{◌≡◌, [], OnOk, is_some, length, nat_eq};
ghost use Rattle.std.specs.Map.{lookup};
ghost use Rattle.indexmap.specs.IndexMap.{insert_entry};
ghost use Rattle.m11_base.specs.Rad50.{is_same_name};
ghost use Rattle.m11_link_modules.specs.Positions.{size_known};

use m11_base::{Name, Seed, SeededMap, absolute_section};
use std::alloc::{AllocFailed, Global};
use std::marker::Model;

/// The sections that a module has entered, each with its size in bytes.
#[derive(Drop)]
pub(crate) struct EnteredSections {
    sizes: SeededMap<Name, u16>,
    // The section that was found last, with its size; None if none was found since a section was entered or a module ended.
    // speed: relocations name the same section many times in a row; otherwise the table would be searched for each of them.
    last: Option<(Name, u16)>,
}

impl Model for EnteredSections {
    ghost use Rattle.std.specs.Prelude.{◌≡◌, ℕ, List, Some, IfSome};
    ghost use Rattle.m11_base.specs.Rad50.{Name as SectionName};
    ghost use Rattle.m11_link_modules.specs.Positions.{size_known};

    ghost Value = { List (SectionName × ℕ) };

    ghost view = { λ e. e.sizes.entries };

    ghost invariant = { λ e. IfSome e.last (λ known. size_known e.sizes.entries known.0 ≡ Some known.1) };
}

impl EnteredSections {
    /// The sections of a module that has entered none yet.
    pub(crate) fn new(alloc: Global, seed: Seed) -> EnteredSections
        ensures { result ≡ [] }
    {
        EnteredSections {
            sizes: SeededMap::with_hasher(alloc, seed),
            last: None,
        }
    }

    /// Whether the module has entered no section yet.
    pub(crate) fn is_empty(&self) -> bool
        ensures { result ≡ nat_eq (length self.now) 0 }
    {
        self.sizes.is_empty()
    }

    /// Whether the module has entered a section with this name.
    pub(crate) fn contains(&self, name: Name) -> bool
        ensures { result ≡ is_some (lookup (is_same_name name) self.now) }
    {
        self.sizes.contains_key(&name)
    }

    /// The size in bytes of a section that the module has entered; 0 for `. ABS.` if the module hasn't entered it; None for any
    /// other name.
    pub(crate) fn size_of(&mut self, name: Name) -> Option<u16>
        ensures size { result ≡ size_known self.old name }
        ensures same { self.new ≡ self.old }
    {
        if let Some((last, size)) = self.last {
            if last == name {
                return Some(size);
            }
        }
        self.look_up(name)
    }

    // Returns the same size as `size_of`, but always searches the table. A section whose size is known becomes the one found last.
    fn look_up(&mut self, name: Name) -> Option<u16>
        ensures size { result ≡ size_known self.old name }
        ensures same { self.new ≡ self.old }
    {
        let size = match self.sizes.get(&name) {
            Some(size) => *size,
            None if name == absolute_section() => 0,
            None => return None,
        };
        self.last = Some((name, size));
        Some(size)
    }

    /// Enters a section, with its size in bytes. Fails if memory is refused.
    pub(crate) fn insert(&mut self, name: Name, size: u16) -> Result<(), AllocFailed<(Name, u16)>>
        ensures { OnOk result (self.new ≡ insert_entry is_same_name self.old name size) }
    {
        self.last = None;
        self.sizes.insert(name, size)?;
        Ok(())
    }

    /// Forgets all sections at the end of a module.
    pub(crate) fn clear(&mut self)
        ensures { self.new ≡ [] }
    {
        self.last = None;
        self.sizes.clear();
    }
}
