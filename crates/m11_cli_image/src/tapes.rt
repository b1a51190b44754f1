//! The tapes that links of the objects of sources write, and loads of them.

ghost use Rattle.std.specs.Prelude.{◌≡◌, ℕ, List, length, map, Option, Some, Result, Ok};
ghost use Rattle.std.specs.List.{AllByRecursion};
ghost use Rattle.m11_base.specs.Feed.{Text};
ghost use Rattle.m11_cpu.specs.Loading.{LoadsInto};
ghost use Rattle.m11_cpu.specs.declared.fault.LoadFault.{LoadFault};
ghost use Rattle.m11_cpu_machine.specs.declared.machine.Machine.{Machine};
ghost use Rattle.m11_base_writes.specs.declared.outputs.Output.TheVariants.{Product};
ghost use Rattle.m11_link.specs.Objects.{AreItems, Item, outcome};
ghost use Rattle.m11_link.specs.Outputs.{link};
ghost use Rattle.m11_link.specs.Written.{link_writes};
ghost use Rattle.m11_link_text.specs.Findings.{findings_of};
ghost use Rattle.m11_link_modules.specs.Parts.{Part};
ghost use Rattle.m11_cpu_laws.specs.Loaded.{LoadYields};
ghost use Rattle.m11_cpu_laws.specs.Tapes.{IsTapeOf};
ghost use Rattle.m11_base_writes.specs.Writes.{gained};
ghost use Rattle.m11_cli_image.specs.Image.{image_of};
ghost use Rattle.m11_cli_image.specs.Objects.{SourceFits, object_of};
ghost use Rattle.m11_cli_image.specs.Sources.{Source};
ghost use Rattle.m11_cli_image.specs.Tapes.{tape_size};

/// If a link of the objects of sources that fit refuses nothing, the tape that the link writes is a tape of the image of the sources,
/// whatever messages the link writes. At each address the tape has exactly the byte of the image, or none if the image has none there. The
/// start of the tape is that of the image, or 1 if the image has none.
#[tactic(auto, using(crate::proofs::TapesHold::tape_written))]
pub fn links_give_the_image()
    ensures { (bottom : ℕ) (sources : List Source) (items : List Item) (parts : List Part) → AllByRecursion SourceFits sources
        → AreItems (map object_of sources) items → outcome bottom items ≡ Ok parts
        → IsTapeOf (image_of bottom sources) (gained link Product (link_writes (findings_of bottom parts) parts)) }
{}

/// If a link of the objects of sources that fit refuses nothing, and a machine loads the link's tape, then the machine holds the byte of
/// the image at each address where the image has one, and is otherwise unchanged. The load returns the start of the image, or 1 if the
/// image has none. The load fails only if the image has a byte outside memory, the tape is too long, or the device failed.
pub fn loads_of_links_yield_the_image()
    ensures { (bottom : ℕ) (sources : List Source) (items : List Item) (parts : List Part) (text : Text) (left : Option Text)
        (faults faults' : ℕ) (before after : Machine) (result : Result ℕ LoadFault) → AllByRecursion SourceFits sources
        → AreItems (map object_of sources) items → outcome bottom items ≡ Ok parts
        → text.bytes ≡ gained link Product (link_writes (findings_of bottom parts) parts)
        → LoadsInto (Some text) left faults faults' before after result
        → LoadYields (image_of bottom sources) text.bytes faults faults' before after result }
{}

/// If a link of the objects of sources that fit refuses nothing, the link's tape has seven bytes for each text of the sources beside the
/// bytes of the text, and seven for the transfer block, whatever the addresses and the values that relocations store.
pub fn tapes_have_the_sizes_of_their_texts()
    ensures { (bottom : ℕ) (sources : List Source) (items : List Item) (parts : List Part) → AllByRecursion SourceFits sources
        → AreItems (map object_of sources) items → outcome bottom items ≡ Ok parts
        → length (gained link Product (link_writes (findings_of bottom parts) parts)) ≡ tape_size sources }
{}
