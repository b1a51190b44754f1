//! The lines of a link's messages. They show names with six characters, and have no blanks at the end.

ghost use Rattle.std.specs.Prelude.{◌≡◌, ◌≤◌, ◌<◌, ◌+◌, ◌++◌, codes, length};
ghost use Rattle.m11_base.specs.Rad50.{name_text};
ghost use Rattle.arrayvec.specs.ArrayVec.{array_vec_len};
ghost use Rattle.m11_link_text.specs.Lines as spec;

use m11_base::Name;
use m11_obj_print::{Line, add_bytes, ended};

/// The message about a global that is referred to and not defined.
#[tactic(auto, using(m11_obj_print::proofs::Trimming::line_at))]
pub fn undefined_line(name: Name) -> Line
    ensures { result.items ≡ spec.undefined_line name }
{
    let mut line = Line::new();
    add_bytes(&mut line, b"UNDEFINED GLOBAL ");
    add_bytes(&mut line, &name.characters());
    ended(line)
}

// These words, a name, `IN MODULE` and the module's name, without the end of the line.
fn in_module(words: &[u8], name: Name, module_name: Name) -> Line
    requires { length words.now ≤ 24 }
    ensures text { result.items ≡ (words.now ++ name_text name) ++ (codes " IN MODULE " ++ name_text module_name) }
    ensures room { array_vec_len result < 175 }
{
    let mut line = Line::new();
    add_bytes(&mut line, words);
    add_bytes(&mut line, &name.characters());
    add_bytes(&mut line, b" IN MODULE ");
    add_bytes(&mut line, &module_name.characters());
    line
}

/// The message about a module that defines a global again.
#[tactic(auto, using(m11_obj_print::proofs::Trimming::line_at))]
pub fn multiple_line(name: Name, module_name: Name) -> Line
    ensures { result.items ≡ spec.multiple_line name module_name }
{
    ended(in_module(b"MULTIPLE DEFINITION ", name, module_name))
}

/// The message about a module whose entry for a section has attributes other than those of the section's first entry.
#[tactic(auto, using(m11_obj_print::proofs::Trimming::line_at))]
pub fn different_line(section: Name, module_name: Name) -> Line
    ensures { result.items ≡ spec.different_line section module_name }
{
    ended(in_module(b"DIFFERENT ATTRIBUTES ", section, module_name))
}
