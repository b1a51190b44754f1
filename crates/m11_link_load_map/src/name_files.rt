//! The names of addresses, in files.

ghost use Rattle.std.specs.Prelude.{◌≡◌, ◌++◌, [], ℕ, IfErr, IfOk, map};
ghost use Rattle.m11_base.specs.Feed.{HasBytes};
ghost use Rattle.m11_base_disassembly.specs.ListedLines.{listing_of};
ghost use Rattle.m11_base_disassembly.specs.Maps.{IsUnread, so_far};
ghost use Rattle.m11_base_disassembly.specs.declared.map_fault.MapFault.TheVariants.{NoMemory};
ghost use Rattle.m11_link_load_map.specs.NameFiles as spec;
ghost use Rattle.m11_link_load_map.specs.declared.name_files.NoNames.TheVariants.{InFile};

use crate::objects::add_object_names;
use m11_base::Feed;
use m11_base_disassembly::{Kept, MapFault, NamesSoFar, PlacedListing, Symbol, Symbols, read_text};
use m11_base_files::{OpenRefusal, Opens};
use std::alloc::Global;

/// Why files give no names.
#[derive(Clone, Copy)]
pub enum NoNames<'a> {
    /// The file at this path couldn't be opened.
    NotOpened(&'a str),
    /// The file at this path couldn't be read, is too long, has none of the forms, or is an object that a link refuses; or memory was
    /// refused for it.
    InFile(&'a str, MapFault),
}

/// What files of names give.
#[derive(Drop)]
pub struct FileNames {
    /// The names of addresses.
    pub symbols: Symbols,
    /// The listings among the files with their lines, in order; none if only names are kept.
    pub listings: Vec<PlacedListing>,
}

// The names that files give, before they have an index, and the listings.
#[derive(Drop)]
struct ListedNames {
    symbols: Vec<Symbol>,
    listings: Vec<PlacedListing>,
}

// What has been found so far in files of names.
#[derive(Drop)]
struct Found<'a, I> {
    // What maps, load maps and listings have given.
    names: NamesSoFar,
    // The paths of objects.
    objects: Vec<&'a str>,
    // The objects, which are opened again to be read together.
    inputs: Vec<I>,
}

/// The names of addresses in the files at these paths: the globals of maps, the globals and the sections of load maps, and the names in
/// listings, in order, and after them the globals of a link of the objects among these files. If lines are kept, the listings are handed back
/// with their lines too. A listing lies where the contributions of its module do in the last load map before it; without a load map before
/// it, and in a link of the objects, relocatable sections begin at `bottom`. Each file is opened and read before the next; an object is then
/// opened again, as for two passes, and must be a file that can be read more than once. Error: why a file gives no names, for the first such
/// file; or else why a link of the objects is refused, with the path of the object at fault; or else, if memory is refused for the index of
/// the names, `NoMemory` with the path of the first file.
pub fn read_names<'a, F: Opens>(
    alloc: Global,
    files: &mut F,
    kept: Kept,
    bottom: u16,
    paths: &[&'a str],
) -> Result<FileNames, NoNames<'a>>
    ensures names { IfOk result (λ names. spec.Names F.Input.text F.Input.faults kept bottom (F.files files.old)
        (map (λ path. path.now) paths.now) names.symbols (map listing_of names.listings.items)) }
    ensures none { IfErr result (spec.NoneNamed F.Input.text F.Input.faults kept bottom (F.files files.old)
        (map (λ path. path.now) paths.now)) }
    ensures files { F.files files.new ≡ F.files files.old }
    ensures counts { spec.Counts (F.refusals files.old) (F.refusals files.new) result }
{
    match paths {
        [] => Ok(no_names(alloc)),
        [first, ..] => match listed_names(alloc, files, kept, bottom, paths) {
            Ok(names) => with_index(alloc, names, *first),
            Err(none) => Err(none),
        },
    }
}

// What no files give.
fn no_names(alloc: Global) -> FileNames
    ensures symbols { result.symbols ≡ [] }
    ensures listings { result.listings.items ≡ [] }
{
    FileNames {
        symbols: Symbols::none(alloc),
        listings: Vec::new(alloc),
    }
}

// The names with an index. Error: memory was refused, for which this file stands.
fn with_index<'a>(
    alloc: Global,
    names: ListedNames,
    path: &'a str,
) -> Result<FileNames, NoNames<'a>>
    ensures symbols { IfOk result (λ all. all.symbols ≡ names.symbols.items) }
    ensures listings { IfOk result (λ all. all.listings ≡ names.listings) }
    ensures none { IfErr result (λ none. none ≡ InFile path.entry NoMemory) }
{
    let ListedNames { symbols, listings } = names;
    match Symbols::new(alloc, symbols) {
        Ok(symbols) => Ok(FileNames { symbols, listings }),
        Err(_) => Err(NoNames::InFile(path, MapFault::NoMemory)),
    }
}

// The names in files at these paths, as `read_names` has them. Error: as there.
fn listed_names<'a, F: Opens>(
    alloc: Global,
    files: &mut F,
    kept: Kept,
    bottom: u16,
    paths: &[&'a str],
) -> Result<ListedNames, NoNames<'a>>
    ensures names { IfOk result (λ names. spec.Names F.Input.text F.Input.faults kept bottom (F.files files.old)
        (map (λ path. path.now) paths.now) names.symbols.items (map listing_of names.listings.items)) }
    ensures none { IfErr result (spec.NoneNamed F.Input.text F.Input.faults kept bottom (F.files files.old)
        (map (λ path. path.now) paths.now)) }
    ensures files { F.files files.new ≡ F.files files.old }
    ensures counts { spec.Counts (F.refusals files.old) (F.refusals files.new) result }
{
    let mut found = Found {
        names: NamesSoFar::new(alloc, kept),
        objects: Vec::new(alloc),
        inputs: Vec::new(alloc),
    };
    match add_files(alloc, files, &mut found, bottom, paths) {
        Ok(()) => with_objects(alloc, files, bottom, found),
        Err(none) => Err(none),
    }
}

// The names that were found, and after them those of the objects. Error: why the objects give no names.
fn with_objects<'a, F: Opens>(
    alloc: Global,
    files: &F,
    bottom: u16,
    found: Found<'a, F::Input>,
) -> Result<ListedNames, NoNames<'a>>
    ensures names { IfOk result (λ names. spec.WithObjects F.Input.text F.Input.faults bottom (map (λ path. path.now) found.entry.objects.items)
        found.entry.inputs.items found.entry.names.symbols.items names.symbols.items) }
    ensures listings { IfOk result (λ names. names.listings ≡ found.entry.names.listings) }
    ensures none { IfErr result (spec.ObjectsLack F.Input.text F.Input.faults bottom (map (λ path. path.now) found.entry.objects.items)
        found.entry.inputs.items) }
{
    let Found {
        names,
        objects,
        inputs,
    } = found;
    let NamesSoFar {
        symbols,
        listings,
        ..
    } = names;
    let mut symbols = symbols;
    let mut inputs = inputs;
    let seed = files.seed();
    match add_object_names(
        alloc,
        seed,
        &mut symbols,
        bottom,
        objects.as_slice(),
        inputs.as_mut_slice(),
    ) {
        Ok(()) => Ok(ListedNames { symbols, listings }),
        Err(none) => Err(none),
    }
}

// Whether bytes are those of an object.
fn is_object(bytes: &[u8]) -> bool
    ensures { result ≡ spec.is_object bytes.now }
{
    match bytes {
        [] => false,
        [byte, ..] => *byte < 2,
    }
}

// Adds the names in the files at these paths, and the objects among them. Error: why a file gives no names, for the first such
// file.
fn add_files<'a, F: Opens>(
    alloc: Global,
    files: &mut F,
    found: &mut Found<'a, F::Input>,
    bottom: u16,
    paths: &[&'a str],
) -> Result<(), NoNames<'a>>
    ensures adds { spec.AddsFiles F.Input.text bottom (F.files files.old) (map (λ path. path.now) paths.now)
        (so_far found.old.names) (map (λ path. path.now) found.old.objects.items) found.old.inputs.items
        (so_far found.new.names) (map (λ path. path.now) found.new.objects.items) found.new.inputs.items result }
    ensures files { F.files files.new ≡ F.files files.old }
    ensures counts { spec.Counts (F.refusals files.old) (F.refusals files.new) result }
{
    match paths {
        [] => Ok(()),
        [path, others @ ..] => {
            add_file(alloc, files, found, bottom, *path)?;
            add_files(alloc, files, found, bottom, others)
        }
    }
}

// Adds the names in the file at this path, or the file itself if it is an object. Error: why the file gives no names.
fn add_file<'a, F: Opens>(
    alloc: Global,
    files: &mut F,
    found: &mut Found<'a, F::Input>,
    bottom: u16,
    path: &'a str,
) -> Result<(), NoNames<'a>>
    ensures adds { spec.AddsFile F.Input.text bottom (F.files files.old) path.entry.now
        (so_far found.old.names) (map (λ path. path.now) found.old.objects.items) found.old.inputs.items
        (so_far found.new.names) (map (λ path. path.now) found.new.objects.items) found.new.inputs.items result }
    ensures files { F.files files.new ≡ F.files files.old }
    ensures counts { spec.Counts (F.refusals files.old) (F.refusals files.new) result }
{
    match files.open(path) {
        Ok(input) => match text_of(alloc, input) {
            Ok(text) => {
                if is_object(text.as_slice()) {
                    hold_object(files, found, path)
                } else {
                    match found.names.add_text(alloc, bottom, text.as_slice()) {
                        Ok(()) => Ok(()),
                        Err(fault) => Err(NoNames::InFile(path, fault)),
                    }
                }
            }
            Err(fault) => Err(NoNames::InFile(path, fault)),
        },
        Err(OpenRefusal::NotOpened) => Err(NoNames::NotOpened(path)),
        Err(OpenRefusal::NoMemory) => Err(NoNames::InFile(path, MapFault::NoMemory)),
    }
}

// Opens the object at this path again, and adds it. It is opened as for two passes, so that a file that can be read only once, and would
// now be empty, is refused. Error: it can't be opened in this way, or memory was refused.
fn hold_object<'a, F: Opens>(
    files: &mut F,
    found: &mut Found<'a, F::Input>,
    path: &'a str,
) -> Result<(), NoNames<'a>>
    ensures holds { spec.HoldsObject F.Input.text (F.files files.old) path.entry.now
        (so_far found.old.names) (map (λ path. path.now) found.old.objects.items) found.old.inputs.items
        (so_far found.new.names) (map (λ path. path.now) found.new.objects.items) found.new.inputs.items result }
    ensures files { F.files files.new ≡ F.files files.old }
    ensures counts { spec.Counts (F.refusals files.old) (F.refusals files.new) result }
{
    match files.open_twice(path) {
        Ok((input, _)) => {
            if found.objects.push(path).is_ok() && found.inputs.push(input).is_ok() {
                Ok(())
            } else {
                Err(NoNames::InFile(path, MapFault::NoMemory))
            }
        }
        Err(OpenRefusal::NotOpened) => Err(NoNames::NotOpened(path)),
        Err(OpenRefusal::NoMemory) => Err(NoNames::InFile(path, MapFault::NoMemory)),
    }
}

// All bytes of an open file. Error: it couldn't be read, or is too long; or memory was refused.
fn text_of<T: Feed + Drop>(alloc: Global, input: T) -> Result<Vec<u8>, MapFault>
    ensures text { IfOk result (λ text. HasBytes (T.text input) text.items) }
    ensures unread { IfErr result (λ fault. (faults : ℕ) × (faults' : ℕ) × IsUnread (T.text input) faults faults' fault) }
{
    let mut input = input;
    read_text(alloc, &mut input)
}
