//! Files in memory, from one command to the next.

ghost use Rattle.std.specs.Prelude.{◌≡◌, ◌++◌, ℕ, List, [], map, Some};
ghost use Rattle.m11_base_files.specs.MemoryFiles.{files_of, made_of};
ghost use Rattle.m11_base_files.specs.declared.memory_files.MadeFile.{MadeFile};
ghost use Rattle.m11_base_files.specs.declared.memory_files.MemoryFile.{MemoryFile};
ghost use Rattle.m11_cli_reports.specs.Streams.{store};
ghost use Rattle.m11_cli_chain.specs.Stores.{Follows, created_as};

/// A command over files in memory begins with the files that an earlier one left if its stored files are the created files of the earlier
/// one, in their order, and then the files that were stored for that one.
pub fn created_files_are_stored_before_the_others()
    ensures { (stored given : List MemoryFile) (made : List MadeFile) (refusals refusals' : ℕ) → map made_of made ≡ map created_as given
        → Follows (store (Some (files_of stored made)) refusals) (store (Some (files_of (given ++ stored) [])) refusals') }
{}
