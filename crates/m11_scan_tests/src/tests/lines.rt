//! Lines, sets of flags and names.

use super::{equal, same};
use bitflags::Flags;
use m11_scan::{ErrorFlags, Line, expression_at, read_name};

#[test]
fn a_line_has_132_characters(rt: HostRuntime) {
    for (count, kept, is_over_long) in [
        (131, 131, false),
        (132, 132, false),
        (133, 132, true),
        (200, 132, true),
    ] {
        let line = Line::from_bytes(&[b'+'; 200][..count]);
        same(&rt, &count, &line.text().len(), &kept);
        same(&rt, &count, &line.is_over_long(), &is_over_long);
        same(&rt, &count, &expression_at(&line, 0).tokens.len(), &kept);
    }
}

#[test]
fn flags_stand_in_the_order_of_the_alphabet(rt: HostRuntime) {
    let some = ErrorFlags::U
        .with(ErrorFlags::A)
        .with(ErrorFlags::Q)
        .with(ErrorFlags::A);
    same(&rt, &"some", &some.text().as_slice(), &b"AQU".as_slice());
    same(&rt, &"none", &ErrorFlags::none().text().len(), &0);
    let all = ErrorFlags::from_bits_retain(0xffff);
    same(
        &rt,
        &"all",
        &all.text().as_slice(),
        &b"ABDEILMNOPQRTU".as_slice(),
    );
}

#[test]
fn blanks_after_a_name_count_for_nothing(rt: HostRuntime) {
    equal(&rt, &"blanks", &read_name(b"$.1"), &read_name(b"$.1  "));
    equal(&rt, &"no name", &read_name(b"A?"), &None);
}
