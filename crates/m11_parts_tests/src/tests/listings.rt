//! Lines of listings and messages. (MACRO-11 Language Reference Manual, "Listing control directives".)

use m11_asm_listing::{
    Item, Mark, count_line, further_line, listed_line, location_after, message_line,
};

fn word(number: u16) -> Item {
    Item::InWord(number, Mark::Unmarked)
}

// A text with a NUL, a further line after two items, a further line without items, all flags, and the greatest count of flagged lines.
#[test]
fn lines_that_no_source_gives_stand_in_their_columns(rt: HostRuntime) {
    let byte = Item::InByte(0o200, Mark::Unmarked);
    let listed = listed_line(b"I", 1, 0, &[byte], b".ASCII \x80a\x80\x7f\0");
    assert!(&rt;
        listed.as_slice() == b"I        1 000000    200                  .ASCII ?a???\n".as_slice(),
        "a text with a NUL"
    );
    let second = location_after(0o177776, &[word(1), word(2)]);
    let further = further_line(second, &[word(3), word(4), word(5)]);
    assert!(&rt;
        further.as_slice() == b"           000002 000003  000004  000005\n".as_slice(),
        "past the last place"
    );
    assert!(&rt;
        further_line(0o20, &[]).as_slice() == b"           000020\n".as_slice(),
        "no item"
    );
    let message = message_line(b"ABDEILMNOPQRTU", 65535, b"  ;");
    assert!(&rt;
        message.as_slice() == b"ABDEILMNOPQRTU 65535:   ;\n".as_slice(),
        "all flags"
    );
    let count = count_line(4_294_967_295);
    assert!(&rt;
        count.as_slice() == b"ERRORS DETECTED: 4294967295\n".as_slice(),
        "the greatest count"
    );
}
