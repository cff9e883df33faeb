ghost use Rattle.std.specs.Prelude.{option_map};
ghost use Rattle.command_line.specs.Transform.{forward_of};
ghost use Rattle.office_commands.specs.commands.Audited.{IsAudited, TellsAudit};
ghost use Rattle.office_commands.specs.port.Places.{places_of};
ghost use Rattle.vend_ports.specs.print.Told.{outputs};

use crate::office::auditing::{audit_files, end_audit};
use crate::office::meeting::meet;
use crate::office::met::Met;
use crate::port::ended::Ended;
use crate::port::ports::OfficeFile;
use crate::port::progress::Progress;
use crate::print::audit_lines::{put_broken, put_no_office, put_sound};
use crate::print::opening::put_opening;
use audit::{AuditFault, Audited};
use book_opening::fault_of;
use books::OpenFault;
use command_line::AuditWords;
use std::alloc::Global;
use std::io::Write;
use vend_ports::{CommandEnd, Watched, put_line};

/// Audits the named file, if it exists, and leaves its rows as they were. It prints `sound` and the
/// counts, or `broken` with the first row that breaks a rule, or `no office`, and tells `progress`
/// when the file is open and which parts have passed.
pub fn run<H: OfficeFile, P: Progress, O: Write, E: Write>(
    words: &AuditWords,
    alloc: Global,
    office: H,
    progress: &mut P,
    out: &mut Watched<'_, O>,
    err: &mut Watched<'_, E>,
) -> Ended<H::Medium>
    ensures { IsAudited
        (places_of H.Medium.Disk H.Salts.SaltSource H.OfficeFile office result.back
        words.now.file.now words.now.wait) (option_map forward_of words.now.transform)
        (outputs out.old out.new err.old err.new) result.end }
{
    let salts = office.salts();
    match meet(alloc, office, &salts, words.file, words.wait) {
        Ok(Met::There(mut conn)) => {
            progress.tell_opened();
            let found = audit_files(alloc, &mut conn, words.transform, progress);
            let (answer, back) = end_audit::<H>(alloc, found, conn);
            let end = tell(answer, out, err);
            Ended { end, back }
        }
        Ok(Met::NoOffice) => {
            put_no_office(out);
            Ended {
                end: CommandEnd::Refused,
                back: None,
            }
        }
        Ok(Met::Nothing) => {
            put_line(&[b"file"], err);
            Ended {
                end: CommandEnd::Refused,
                back: None,
            }
        }
        Err(fault) => {
            put_opening(fault, err);
            Ended {
                end: CommandEnd::Refused,
                back: None,
            }
        }
    }
}

// Tells what an audit answers.
fn tell<O: Write, E: Write>(
    answer: Result<Audited, AuditFault>,
    out: &mut Watched<'_, O>,
    err: &mut Watched<'_, E>,
) -> CommandEnd
    ensures { TellsAudit answer (outputs out.old out.new err.old err.new) result }
{
    match answer {
        Ok(audited) => {
            if audited.format == 0 {
                put_no_office(out);
                return CommandEnd::Refused;
            }
            put_sound(audited, out);
            CommandEnd::Done
        }
        Err(AuditFault::Found(finding)) => {
            put_broken(&finding, out);
            CommandEnd::Refused
        }
        Err(AuditFault::NoOffice) => {
            put_opening(OpenFault::NotAnOffice, err);
            CommandEnd::Refused
        }
        Err(AuditFault::Failed(error)) => {
            put_opening(fault_of(error), err);
            CommandEnd::Refused
        }
    }
}
