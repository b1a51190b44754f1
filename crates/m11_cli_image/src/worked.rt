//! A program worked by hand. (MACRO-11 Language Reference Manual, "Relocation and linking".)

ghost use Rattle.std.specs.Prelude.{◌≡◌, [], ◌∷◌};
ghost use Rattle.std.specs.List.{AllByRecursion};
ghost use Rattle.m11_cli_image.specs.Image.{addresses_of, all_placed};
ghost use Rattle.m11_cli_image.specs.Agreement.{AbsolutesAgree, AreOf};
ghost use Rattle.m11_cli_image.specs.Lines.{all_lying};
ghost use Rattle.m11_cli_image.specs.Objects.{SourceFits};
ghost use Rattle.m11_cli_image.specs.Worked.{fetching, giving, worked_addresses, worked_bytes, worked_sources};

/// The lines of the worked program state the octal words 016700, 000002, 000000 and 000123, the first of them at octal 1000. The pieces of
/// its sources, linked with relocatable sections that begin at octal 1000, have the same bytes at the same addresses. The premises of the
/// laws about values and links hold of the sources.
pub fn the_worked_program_states_four_words()
    ensures lines { AreOf (fetching ∷ giving ∷ []) worked_sources }
    ensures agree { AbsolutesAgree worked_sources }
    ensures fit { AllByRecursion SourceFits worked_sources }
    ensures stated { all_lying worked_addresses (fetching ∷ giving ∷ []) ≡ worked_bytes }
    ensures placed { all_placed (addresses_of 0o1000 worked_sources) worked_sources ≡ worked_bytes }
{}
