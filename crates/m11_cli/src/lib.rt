//! The commands of the tool chain: the files of a task, its run, the exit status, and the line for its fault.
#![tactic(auto)]

mod driver;
mod fault_lines;
mod outcome;

pub use driver::command;
pub use fault_lines::fault_line;
pub use m11_base_files::{MadeFile, MemoryFile, MemoryFiles, OpenRefusal, Opens, SystemFiles};
pub use m11_cli_reports::command_without_words;
pub use m11_cli_tasks::{AsmTask, LinkTask, SimTask, Task, UsageFault, WordsFault, plan, words};
pub use outcome::{Outcome, status};
