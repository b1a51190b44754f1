//! Writes to several outputs in one order: what each output gains by them, and what an early end leaves; and the three outputs of
//! the assembler and the linker. The crate's definitions also describe passes over feeds: the feeds before and after a pass, and
//! their texts if these are known.
#![tactic(auto)]

// A write to one output, which writes all bytes or returns the output's fault.
mod writes;

pub use writes::{flush_or_fail, put_or_fail};

// The outputs of a program: its product, its report and its messages.
mod outputs;

pub use outputs::{Output, OutputFault, flush_files, put_message, put_product, put_report};

// Laws of writes that end early.
mod laws;

pub use laws::{devices_have_beginnings, early_ends_leave_beginnings};
