ghost use Rattle.papers.specs.Output.{BlamesWriter, IsWritten};
ghost use Rattle.std.specs.Prelude.{◌≢◌, Err};

use crate::fault::TextFault;
use crate::outlet::Outlet;

/// Hands a whole text to a writer, by as many writes as it takes. Where the writer fails or takes
/// no byte, it has a beginning of the text and no more.
pub fn write_whole<W: Outlet>(text: &[u8], out: &mut W) -> Result<(), TextFault>
    ensures written { IsWritten (W.contents out.old) (W.contents out.new) text.now result }
    ensures never_memory { result ≢ Err TextFault.Memory }
    ensures failed { BlamesWriter result (W.failed out.new) }
{
    let mut rest = text;
    while !rest.is_empty() {
        match out.put_some(rest) {
            Ok(taken) if taken > 0 => rest = &rest[taken..],
            _ => return Err(TextFault::Write),
        }
    }
    Ok(())
}
