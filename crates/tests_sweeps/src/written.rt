//! The texts of whole days.

use cu_arrival::Arrival;
use cu_day::write_day;
use cu_io::MemorySink;
use std::alloc::Global;
use std::test::Fail;

/// The text of a day, in room for so many bytes.
pub(crate) fn written(alloc: Global, function: &Arrival, room: usize) -> Result<MemorySink, Fail> {
    let mut sink = MemorySink::new(alloc, room, Vec::new(alloc))?;
    write_day(function, &mut sink)?;
    Ok(sink)
}
