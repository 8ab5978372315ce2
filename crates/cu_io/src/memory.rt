//! A source, a sink and a shelf in memory, which tell all they hold and fail at the calls that they are told to.
mod calls;
mod memory_shelf;
mod memory_sink;
mod memory_source;

pub use memory_shelf::MemoryShelf;
pub use memory_sink::MemorySink;
pub use memory_source::MemorySource;
pub(crate) use memory_source::copy_front;
