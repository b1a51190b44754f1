//! The final values of the names of a whole source, as the second pass knows them. (MACRO-11 Language Reference Manual, "Symbols".)

ghost use Rattle.std.specs.Prelude.{◌≡◌, option_copied};
ghost use Rattle.m11_asm_rules.specs.Assigning.{is_exported};
ghost use Rattle.m11_asm_rules.specs.Definitions.{has_key, last_definition};
ghost use Rattle.m11_asm_rules.specs.Meanings.{empty_map, map_of};

use crate::definitions::{Definition, Key};
use crate::table::Table;
use m11_base::Name;
use std::marker::Model;

/// The final values of the names of a whole source: none in the first pass; in the second, those of the table after the first pass.
#[derive(Drop)]
pub struct Map<'a> {
    table: Option<&'a Table>,
}

impl<'a> Model for Map<'a> {
    ghost use Rattle.std.specs.Prelude.{option_map};
    ghost use Rattle.m11_asm_rules.specs.Meanings.{Map as Meanings};
    ghost use Rattle.m11_asm_rules.specs.Maps.{map_by};

    ghost Value = { Meanings };

    ghost view = { λ m. map_by (option_map (λ t. t.now) m.table) };
}

impl<'a> Map<'a> {
    /// The map of the first pass, which has no names.
    pub fn none() -> Map<'a>
        ensures { result ≡ empty_map }
    {
        Map { table: None }
    }

    /// The map of the second pass, from the table after the first pass.
    pub fn of(table: &'a Table) -> Map<'a>
        ensures { result ≡ map_of table.now }
    {
        Map { table: Some(table) }
    }

    /// The last definition of a key in the source, if it has one; None in the first pass.
    pub fn definition(&self, key: &Key) -> Option<&Definition>
        ensures { option_copied result ≡ last_definition key.now self.now.definitions }
    {
        self.table?.definition(key)
    }

    /// Whether a key is doubly defined in the source; false in the first pass.
    pub fn is_doubly_defined(&self, key: &Key) -> bool
        ensures { result ≡ has_key key.now self.now.doubly_defined }
    {
        match self.table {
            Some(table) => table.is_doubly_defined(key),
            None => false,
        }
    }

    /// Whether some line of the source made a name global; false in the first pass.
    pub fn is_exported(&self, name: Name) -> bool
        ensures { result ≡ is_exported name self.now }
    {
        match self.table {
            Some(table) => table.is_global(name),
            None => false,
        }
    }
}
