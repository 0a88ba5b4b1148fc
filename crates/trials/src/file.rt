use crate::buffers::FILL;
use crate::drawing::every_run;
use plan::file::FilePlan;
use plan::interface::Plan;
use plan::table::Table;
use plan::writer::write;
use std::alloc::{AllocError, Global};

/// How many bytes a plan is written into: no plan that is drawn here has a longer file.
const ROOM: usize = 2048;

/// The file of a plan, or no bytes where it is not written as it should be.
// Stays: empty bytes are no plan's file, so each reader finds the fault; an `Option` would be unwrapped to them.
pub(crate) fn file_of<P: Plan>(heap: Global, plan: &P) -> Result<Vec<u8>, AllocError> {
    let mut file = vec![in heap; FILL; ROOM]?;
    let length = write(plan, file.as_mut_slice()).unwrap_or(0);
    if file.iter().skip(length).any(|byte| *byte != FILL) {
        return Ok(Vec::new(heap));
    }
    file.truncate(length);
    Ok(file)
}

/// Whether the bytes are accepted as a file, and are the file of the plan that is read from them.
pub(crate) fn is_own_file(heap: Global, file: &[u8]) -> Result<bool, AllocError> {
    let Ok(plan) = FilePlan::read(file) else {
        return Ok(false);
    };
    Ok(file_of(heap, &plan)?.as_slice() == file)
}

/// Whether the plan of one state that is start and end, with an arrow under the first command to itself, is written as
/// these 22 bytes, and read from them.
pub(crate) fn is_known_file(heap: Global) -> Result<bool, AllocError> {
    let known = b"\x03\0\x01\0\x01\x03\0\x02\0\0\x03\0\x03\0\0\x05\0\x04\0\0\0\0";
    let Ok(table) = Table::try_from(&every_run(heap, 1)?) else {
        return Ok(false);
    };
    Ok(file_of(heap, &table)?.as_slice() == known.as_slice() && is_own_file(heap, known)?)
}
