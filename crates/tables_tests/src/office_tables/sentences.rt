//! The sentence of each fault of a table's reader and of the office's tables.
use book_tables::TableError;
use one_table::ReadFault;
use sqlite::{Error, ErrorCode};
use std::test::Fail;

#[test]
fn a_fault_has_its_sentence(rt: HostRuntime) -> Result<(), Fail> {
    let alloc = rt.alloc();
    let failed = Error::SqliteFailure(ErrorCode::OutOfMemory);
    let (read, nothing) = (ReadFault::Database(failed), ReadFault::Row);
    let (memory, row) = (TableError::Database(failed), TableError::RowOfNoOffice);
    let text = format!(in alloc; "{read}\n{nothing}\n{memory}\n{row}\n")?;
    let told = "\
out of memory
a row stands for nothing
out of memory
a row of the tables is no office's
";
    assert_eq!(rt; text.as_str(), told);
    Ok(())
}
