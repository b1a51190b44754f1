//! Opens and creates the files of a task: those of the system, or files in memory.
#![tactic(auto)]

// The trait for opening files.
mod opens;

pub use opens::{OpenRefusal, Opens};

// The files of the system: what reads them, and stand-ins for closed streams.
mod file_feed;
mod stand_ins;
mod system_files;

pub use file_feed::FileFeed;
pub use system_files::SystemFiles;

// Files in memory.
mod memory_files;

pub use memory_files::{MadeFile, MemoryFile, MemoryFiles};
