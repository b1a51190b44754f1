//! Each kind of relocation but `Fixed`, in words and in bytes, with the constants 3 and 0; and directories shorter than those of sources.
//! (RT-11 Volume and File Formats Manual, "Object file format", RLD block and GSD block.)

use super::name;
use m11_base::Name;
use m11_obj::{
    Block, DirectoryRow, OpenDirectory, OpenText, Piece, PieceContent, RelocationKind,
    StoredConstant, Text,
};
use std::alloc::{AllocError, Global};
use std::test::Fail;

fn word(section: Name, location: u16, constant: u16, kind: RelocationKind) -> Piece {
    Piece {
        section,
        location,
        content: PieceContent::Word(StoredConstant { constant, kind }),
    }
}

fn byte(section: Name, location: u16, constant: u16, kind: RelocationKind) -> Piece {
    Piece {
        section,
        location,
        content: PieceContent::Byte(StoredConstant { constant, kind }),
    }
}

fn put(records: &mut Vec<Block>, text: &Text) -> Result<(), AllocError> {
    for record in text.records() {
        records.push(record)?;
    }
    Ok(())
}

// The records of all texts of these pieces.
fn records(alloc: Global, pieces: &[Piece]) -> Result<Vec<Block>, AllocError> {
    let mut records = Vec::new(alloc);
    let mut open = OpenText::new();
    for piece in pieces {
        if let Some(text) = open.accept(piece) {
            put(&mut records, &text)?;
        }
    }
    if let Some(text) = open.end() {
        put(&mut records, &text)?;
    }
    Ok(records)
}

// A word and a byte with the constant 3, then both with the constant 0: six bytes without a gap.
#[test]
fn each_kind_has_its_commands(rt: HostRuntime) -> Result<(), Fail> {
    let blank = name(b"      ")?;
    let a = name(b"A     ")?;
    #[rattlefmt::skip]
    let rows: [(&str, RelocationKind, &[u8]); 6] = [
        ("internal", RelocationKind::Internal,
            &[4, 0, 0o1, 4, 3, 0, 0o201, 6, 3, 0, 0o1, 7, 0, 0, 0o201, 9, 0, 0]),
        ("internal, displaced", RelocationKind::InternalDisplaced,
            &[4, 0, 0o3, 4, 3, 0, 0o203, 6, 3, 0, 0o3, 7, 0, 0, 0o203, 9, 0, 0]),
        ("global", RelocationKind::Global(a),
            &[4, 0, 0o5, 4, 0x40, 0x06, 0, 0, 3, 0, 0o205, 6, 0x40, 0x06, 0, 0, 3, 0, 0o2, 7, 0x40, 0x06, 0, 0, 0o202, 9, 0x40, 0x06, 0, 0]),
        ("global, displaced", RelocationKind::GlobalDisplaced(a),
            &[4, 0, 0o6, 4, 0x40, 0x06, 0, 0, 3, 0, 0o206, 6, 0x40, 0x06, 0, 0, 3, 0, 0o4, 7, 0x40, 0x06, 0, 0, 0o204, 9, 0x40, 0x06, 0, 0]),
        ("section", RelocationKind::Section(a),
            &[4, 0, 0o15, 4, 0x40, 0x06, 0, 0, 3, 0, 0o215, 6, 0x40, 0x06, 0, 0, 3, 0, 0o12, 7, 0x40, 0x06, 0, 0, 0o212, 9, 0x40, 0x06, 0, 0]),
        ("section, displaced", RelocationKind::SectionDisplaced(a),
            &[4, 0, 0o16, 4, 0x40, 0x06, 0, 0, 3, 0, 0o216, 6, 0x40, 0x06, 0, 0, 3, 0, 0o14, 7, 0x40, 0x06, 0, 0, 0o214, 9, 0x40, 0x06, 0, 0]),
    ];
    for (row, kind, relocations) in &rows {
        let pieces = [
            word(blank, 0, 3, *kind),
            byte(blank, 2, 3, *kind),
            word(blank, 3, 0, *kind),
            byte(blank, 5, 0, *kind),
        ];
        let wanted: [&[u8]; 3] = [
            &[4, 0, 7, 0, 0, 0, 0, 0, 0, 0],
            &[3, 0, 0, 0, 0, 0, 0, 0, 0, 0],
            relocations,
        ];
        let records = records(rt.alloc(), &pieces)?;
        assert_eq!(&rt; records.len(), wanted.len(), "{row}: how many");
        for (record, bytes) in records.iter().zip(&wanted) {
            assert!(&rt; record.as_slice() == *bytes, "{row}");
        }
    }
    Ok(())
}

// Directories that no source has, since the directory of a source has at least four rows.
#[test]
fn no_row_has_no_record_and_one_row_has_one(rt: HostRuntime) -> Result<(), Fail> {
    assert!(&rt; OpenDirectory::new().end().is_none(), "no row");
    let row = DirectoryRow::Reference {
        name: name(b"Q     ")?,
        is_weak: false,
    };
    let mut open = OpenDirectory::new();
    assert!(&rt; open.accept(&row).is_none(), "one row that may be followed");
    match open.end() {
        Some(record) => assert_eq!(&rt; record.len(), 10, "one row"),
        None => assert!(&rt; false, "no record of one row"),
    }
    Ok(())
}
