//! The outside of the program: where its files are kept, and where its text goes.
#![tactic(auto)]

mod changes;
mod failing;
mod failing_calls;
mod in_memory;
mod on_host;
mod outside;
mod whole_files;

pub use changes::{
    put_all_into_a_made_file, put_behind_a_file, put_in_two_parts, put_into_a_made_file,
};
pub use failing::FailingShelf;
pub use in_memory::{MemoryShelf, MemorySink};
pub use on_host::{HostShelf, HostSink};
pub use outside::{Failed, Shelf, TextSink, Unread};
pub use whole_files::{ReadAllFault, put_all, read_all};
