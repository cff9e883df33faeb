//! Requests as lines of text, asked of the office over plain lists.

use crate::lines::{stamped_of, told};
use std::alloc::Global;
use std::test::Fail;
use sts_token::BlockTransform;
use vend_core::Lists;

/// The reply to the request of a line.
pub fn answer<T: BlockTransform>(
    alloc: Global,
    lists: &mut Lists<T>,
    line: &str,
) -> Result<String, Fail> {
    let at = stamped_of(alloc, lists.sales().len(), line)?;
    told(alloc, &lists.serve(&at))
}

/// Asks the requests of these lines, whatever is replied.
pub fn ask_all<T: BlockTransform>(
    alloc: Global,
    lists: &mut Lists<T>,
    lines: &str,
) -> Result<(), Fail> {
    for line in lines.lines() {
        let _ = answer(alloc, lists, line)?;
    }
    Ok(())
}
