//! What the whole chain rests on: names in RADIX-50, words as octal digits, maps with a seed, devices for reading and writing
//! bytes, a latch for the first error of several calls, and the instruction list of the PDP-11/40 with the extended instruction
//! set (the meaning of each word, the code of each instruction, the names of operations). (PDP-11/40 Processor Handbook,
//! "Instruction set"; MACRO-11 Language Reference Manual, "Permanent symbol table", "Numbers", and the appendix on the RADIX-50
//! character set.)
#![tactic(auto)]

// Names in RADIX-50, and words as octal digits.
mod names;
mod octal;
mod rad50;

pub use names::{absolute_section, blank_name};
pub use octal::{octal6, read_octal};
pub use rad50::{Name, Rad50};

// Maps and sets whose hash starts from a seed, so that nobody can choose names that collide in them.
mod maps;
mod seed;

pub use maps::{SeededMap, SeededSet};
pub use seed::Seed;

// Sources of bytes and sinks for them, their failures, and the first error of several calls.
mod fault;
mod feed;
mod latch;
mod sink;

pub use fault::{DeviceFault, OctalFault, PutFault};
pub use feed::Feed;
pub use latch::Latch;
pub use sink::{Sink, put_all};

// Devices: memory, and the readers and writers of the standard library with and without buffers.
mod buffered;
mod buffered_sink;
mod interrupted;
mod memory;
mod stream;

pub use buffered::BufferedFeed;
pub use buffered_sink::BufferedSink;
pub use memory::{MemoryFeed, MemorySink};
pub use stream::{ReaderFeed, WriterSink};

// Devices that fail after a number of calls, for tests.
mod fuse;

pub use fuse::{FuseFeed, FuseSink};

// Instructions, and their operands.
mod instruction;
mod operand;

pub use instruction::{
    BareOp, BranchOp, ConditionCodes, ConditionOp, DoubleOp, ExtendedOp, Insn, NumberOp, Op,
    RegisterOp, SingleOp,
};
pub use operand::{Mode, Operand, Register, Size};

// The instruction list: a row for each operation in each of its sizes, and other names for its codes.
mod instruction_list;

pub use instruction_list::{Row, other_names, rows};

// Decoding of words into instructions, by tables indexed by octal digits, and encoding of instructions as words.
mod decoding;
mod encoding;
mod operation_tables;

pub use decoding::{decode, decode_by_list, operation};
pub use encoding::encode;

// The operations that names in a source mean.
mod mnemonics;

pub use mnemonics::mnemonic;
