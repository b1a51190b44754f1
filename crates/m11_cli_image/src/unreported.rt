//! Links without messages. (MACRO-11 Language Reference Manual, ".PSECT directive".)

ghost use Rattle.std.specs.Prelude.{◌≡◌, ℕ, List, []};
ghost use Rattle.m11_cli_image.specs.Objects.{link_parts};
ghost use Rattle.m11_cli_image.specs.Sources.{Source};
ghost use Rattle.m11_base_writes.specs.declared.outputs.Output.TheVariants.{Messages};
ghost use Rattle.m11_link.specs.Outputs.{link};
ghost use Rattle.m11_link.specs.Written.{link_writes};
ghost use Rattle.m11_link_text.specs.Findings.{findings_of};
ghost use Rattle.m11_base_writes.specs.Writes.{gained};
ghost use Rattle.m11_cli_image.specs.Agreement.{AbsolutesAgree};

/// If a link of the objects of sources writes no message, no section that one source calls ABS is REL in the program. So the laws that
/// assume `AbsolutesAgree` hold of each program whose link writes no message.
pub fn links_without_messages_agree()
    ensures { (bottom : ℕ) (sources : List Source)
        → gained link Messages (link_writes (findings_of bottom (link_parts sources)) (link_parts sources)) ≡ []
        → AbsolutesAgree sources }
{
    crate::links::links_read_their_sources();
}
