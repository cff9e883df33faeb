//! The sentence of each fault of an opening.

use books::OpenFault;
use std::test::Fail;

#[test]
fn a_fault_of_an_opening_has_its_sentence(rt: HostRuntime) -> Result<(), Fail> {
    let alloc = rt.alloc();
    let (other, store, memory) = (OpenFault::NotAnOffice, OpenFault::Store, OpenFault::Memory);
    let text = format!(in alloc; "{other}\n{store}\n{memory}\n")?;
    let told = "the file has tables that are not an office's\nthe store failed\nout of memory\n";
    assert_eq!(rt; text.as_str(), told);
    Ok(())
}
