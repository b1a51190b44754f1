//! The attributes of sections as texts.

ghost use Rattle.std.specs.Prelude.{◌≡◌, ◌≤◌, ◌+◌, ◌++◌, length};
ghost use Rattle.arrayvec.specs.ArrayVec.{array_vec_len};
ghost use Rattle.m11_obj.specs.Attributes.{bits_of, shown_name};
ghost use Rattle.m11_obj_print.specs.Attributes.{attributes_text};

use crate::lines::{Line, add_bytes};
use m11_obj::{SectionFlags, all_attributes};

/// Adds the attributes of a section, such as `RW,I,LCL,REL,CON`, and `,SAV` if the section has SAV. Needs room for 20 bytes.
pub fn add_attributes(line: &mut Line, flags: SectionFlags)
    requires { array_vec_len line.old ≤ 155 }
    ensures text { line.new.items ≡ line.old.items ++ attributes_text (bits_of flags) }
    ensures room { array_vec_len line.new ≤ array_vec_len line.old + 20 }
{
    let mut mark: &[u8] = b"";
    let mut rest = all_attributes();
    'attributes: while let [attribute, others @ ..] = rest {
        if attribute.is_in(flags) {
            add_bytes(line, mark);
            add_name(line, &attribute.name);
            mark = b",";
        }
        rest = others;
    }
}

// Adds a name up to its first blank.
fn add_name(line: &mut Line, name: &[u8])
    requires { array_vec_len line.old + length (shown_name name.now) ≤ 175 }
    ensures { line.new.items ≡ line.old.items ++ shown_name name.now }
{
    let mut rest = name;
    'characters: while let [character, others @ ..] = rest {
        if *character == b' ' {
            return;
        }
        line.push(*character);
        rest = others;
    }
}
