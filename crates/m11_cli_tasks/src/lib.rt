//! The arguments of the process; the task that a command line asks for, with its paths and numbers, or the reason why the command
//! line is refused; and the opening of a task's files.
#![tactic(auto)]

// The arguments of the process.
mod arguments;

pub use arguments::{WordsFault, refusal_line, words};

// The parser of command lines, and the faults of a command line.
mod commands;
mod usage;

pub use commands::{
    leaf_command, option_argument, start_argument, steps_argument, tape_argument, with_argument,
    words_argument,
};
pub use usage::UsageFault;

// The task of a command line.
mod tasks;

pub use tasks::{
    AsmTask, LinkTask, SimTask, Task, address, all_texts, bottom_option, count, number_option,
    plan, sim_task, text_argument,
};

// The opening of a task's files.
mod opened;

pub use opened::{
    AsmFiles, Inputs, LinkFiles, OpenFault, open_asm_files, open_link_files, open_sim_file,
};
