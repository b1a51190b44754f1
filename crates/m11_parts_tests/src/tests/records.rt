//! Records and their relocations, written and read. (RT-11 Volume and File Formats Manual, "Object file format".)

use super::{equal, name, same};
use m11_obj::{Block, GsdEntry, GsdKind, Record, Relocation, Target, read_record, record_bytes};
use std::process::Abort;
use std::test::Fail;

// A block with these bytes as its content, at most 512.
fn block(rt: &impl Abort, bytes: &[u8]) -> Block {
    let mut content = Block::new();
    assert!(rt; content.try_extend_from_slice(bytes).is_ok());
    content
}

fn entry(characters: &[u8; 6], flags: u8, kind: GsdKind, value: u16) -> Result<GsdEntry, Fail> {
    Ok(GsdEntry {
        name: name(characters)?,
        flags,
        kind,
        value,
    })
}

// Checks that a record has these bytes, and that the bytes written for it are read as the same record.
fn is_record(rt: &(impl Abort + AllocGlobal), content: &Block, bytes: &[u8]) -> Result<(), Fail> {
    same(rt, &"a record", &content.as_slice(), &bytes);
    let written = record_bytes(rt.alloc(), &read_record(content)?)?;
    let again = block(rt, &written);
    drop(written);
    same(rt, &"read again", &read_record(&again)?.data(), &bytes);
    Ok(())
}

// The directory of a program of one word.
fn directory() -> Result<[GsdEntry; 4], Fail> {
    Ok([
        entry(b".MAIN.", 0, GsdKind::ModuleName, 0)?,
        entry(b". ABS.", 0o104, GsdKind::ProgramSection, 0)?,
        entry(b"      ", 0o040, GsdKind::ProgramSection, 2)?,
        entry(b". ABS.", 0, GsdKind::TransferAddress, 1)?,
    ])
}

static DIRECTORY: [u8; 34] = [
    0x01, 0x00, 0x09, 0xb1, 0x8c, 0x3a, 0x00, 0x00, 0x00, 0x00, 0x01, 0xaf, 0x94, 0x0f, 0x44, 0x05,
    0x00, 0x00, 0x00, 0x00, 0x00, 0x00, 0x20, 0x05, 0x02, 0x00, 0x01, 0xaf, 0x94, 0x0f, 0x00, 0x03,
    0x01, 0x00,
];

#[test]
fn records_have_their_bytes_of_the_manual(rt: HostRuntime) -> Result<(), Fail> {
    is_record(&rt, &Record::gsd(&directory()?), &DIRECTORY)?;
    is_record(&rt, &Record::end_of_gsd(), &[2, 0])?;
    is_record(&rt, &Record::text(0, &[1, 0]), &[3, 0, 0, 0, 1, 0])?;
    is_record(&rt, &Record::internal_symbols(), &[5, 0])?;
    is_record(&rt, &Record::end_of_module(), &[6, 0])?;
    // command 7 selects a section, and command 4 stores the displacement of a global symbol
    let selects = Relocation {
        is_byte: false,
        displacement: 0,
        target: Target::LocationCounterDefinition(name(b"      ")?, 0),
    };
    let global = Relocation {
        is_byte: false,
        displacement: 6,
        target: Target::GlobalDisplaced(name(b"F     ")?),
    };
    same(&rt, &"the length", &global.byte_count(), &6);
    is_record(
        &rt,
        &Record::relocations(&[selects]),
        &[4, 0, 7, 0, 0, 0, 0, 0, 0, 0],
    )?;
    is_record(
        &rt,
        &Record::relocations(&[global]),
        &[4, 0, 4, 6, 0x80, 0x25, 0, 0],
    )
}

fn relocation(is_byte: bool, displacement: u8, target: Target) -> Relocation {
    Relocation {
        is_byte,
        displacement,
        target,
    }
}

// Checks that the iterator over a record's relocations returns these and then no more, and that reading by index returns the same.
fn has_relocations(rt: &impl Abort, record: &Record<'_>, wanted: &[Relocation]) {
    let mut walk = record.each_relocation();
    for index in 0..wanted.len() + 2 {
        let relocation = wanted.get(index).copied();
        equal(rt, &index, &walk.next(), &relocation);
        equal(rt, &index, &record.relocation(index), &relocation);
    }
    same(
        rt,
        &"the count",
        &record.each_relocation().count(),
        &wanted.len(),
    );
}

#[test]
fn relocations_stand_one_after_another(rt: HostRuntime) -> Result<(), Fail> {
    let several = block(&rt, &[4, 0, 0o11, 4, 0o201, 0o10, 0o40, 0, 0o11, 0o377]);
    let wanted = [
        relocation(false, 4, Target::ProgramLimits),
        relocation(true, 0o10, Target::Internal(0o40)),
        relocation(false, 0o377, Target::ProgramLimits),
    ];
    has_relocations(&rt, &read_record(&several)?, &wanted);
    // an empty relocation record, a text and the end of a module have none
    for bytes in [
        [4, 0].as_slice(),
        [3, 0, 0o11, 4].as_slice(),
        [6, 0, 0o11, 4].as_slice(),
    ] {
        let none = block(&rt, bytes);
        has_relocations(&rt, &read_record(&none)?, &[]);
    }
    Ok(())
}
