ghost use Rattle.std.specs.Prelude.{◌≡◌, ◌≢◌, ◌⊎◌, ◌≤◌, ℕ, Bool, false, [], map, Option};
ghost use Rattle.sqlite.specs.Files.{over_files};
ghost use Rattle.sts_fields.specs.Text.{Text};
ghost use Rattle.office_rules.specs.declared.decision.refusal.Refusal.TheVariants.{Memory};
ghost use Rattle.command_line.specs.Asked.{AskFor};
ghost use Rattle.vend_commands.specs.port.Machines.{machine_of};
ghost use Rattle.vend_ports.specs.print.Printed.{refusal_line};
ghost use Rattle.vend_commands.specs.Run.{IsCarriedOut, IsExplained, IsOfficeAsked};
ghost use Rattle.vend_commands.specs.Run.{IsProgramRun};
ghost use Rattle.vend_ports.specs.Status.{status_of};
ghost use Rattle.vend_ports.specs.print.Sink.{writer};
ghost use Rattle.vend_ports.specs.print.Told.{IsTold, Takes, outputs};
ghost use Rattle.vend_commands.specs.commands.Unread.{bad_words_end, bad_words_line};
ghost use Rattle.command_line.specs.declared.asked.Asked.{Asked};
ghost use Rattle.vend_ports.specs.declared.command_end.CommandEnd.{CommandEnd};

use crate::commands;
use crate::commands::selfcheck::run_selfcheck;
use crate::print::explanation::Explanation;
use clap::error::ErrorKind;
use command_line::{Asked, BadWords, OfficeWords, Place, meant, parse};
use desk::{MachineClock, TimeSource};
use desk_commands::at_desk;
use office_commands::commands::{at_file, file_audit};
use office_commands::{Ended, Machine, MachineFile, OfficeFile, Ports, TerminalProgress};
use office_rules::Refusal;
use sqlite::Start;
use std::alloc::Global;
use std::io::Write;
use std::marker::PhantomData;
use vend_ports::commands::{meter, quote, trial};
use vend_ports::{
    CommandEnd, Door, Loopback, MachineDoor, MachineLoopback, MachineTexts, TextFiles, Watched,
    put_line, put_refusal,
};

/// The computer that the program runs on. `B` stands for what the office's file holds, and `T`
/// tells the time of day.
pub struct Computer<'a, B: Start, T> {
    start: PhantomData<B>,
    time: PhantomData<&'a T>,
}

impl<'a, B: Start, T: TimeSource> Machine for Computer<'a, B, T> {
    type Office = MachineFile<'a, B>;

    type Texts = MachineTexts<'a, HostRuntime>;

    type Clock = MachineClock<'a, T>;

    type Door = MachineDoor<'a, HostRuntime, HostRuntime>;

    type Loopback = MachineLoopback<'a, HostRuntime, HostRuntime>;

    type Progress = TerminalProgress<'a, HostRuntime>;
}

impl<'a, B: Start, T: TimeSource> Computer<'a, B, T> {
    /// Its ports. Its clock is this one.
    pub fn ports(rt: &'a HostRuntime, time: &'a T, start: B) -> Ports<Computer<'a, B, T>>
        ensures { result.clock.source.now ≡ time.now }
    {
        Ports {
            office: MachineFile { rt, start },
            texts: MachineTexts { files: rt },
            clock: MachineClock::new(time),
            door: MachineDoor::new(rt, rt, rt.alloc()),
            loopback: MachineLoopback::new(rt, rt),
            progress: TerminalProgress::new(rt),
        }
    }
}

/// Runs the command that some words give, the program's own name left out, with what some ports
/// give, and answers the exit status.
///
/// A value outside its rule is told as `bad word`, and a command that names no one office as
/// `give --file or --desk`; of words that are no command's `clap` tells what is wrong, or shows its
/// help.
pub fn run<M: Machine, O: Write, E: Write>(
    alloc: Global,
    ports: Ports<M>,
    words: &[&str],
    out: &mut O,
    err: &mut E,
) -> u8
    ensures run { (end : CommandEnd) × (out_failed err_failed : Bool) × (out_name err_name : ℕ)
        × (back : Option (M.Office.Medium × M.Office.Medium))
        × IsProgramRun (over_files {g = M.Office.Medium.Disk}) (machine_of ports back)
        (map (λ w. w.now) words.now)
        (outputs (writer (O.contents out.old) false out_name)
        (writer (O.contents out.new) out_failed out_name)
        (writer (E.contents err.old) false err_name)
        (writer (E.contents err.new) err_failed err_name)) end
        × (result ≡ status_of end out_failed) }
    ensures asked { (asked : Asked) → AskFor (map (λ w. w.now) words.now) asked → result ≤ 1 }
{
    let mut out = Watched::new(out);
    let mut err = Watched::new(err);
    let ran = run_over(alloc, ports, words, &mut out, &mut err);
    let failed = out.has_failed();
    // What the watches held is the writers' again.
    out.into_inner();
    err.into_inner();
    status(ran.end, failed)
}

/// The exit status (`docs/COMMANDS.md`): 1 if the output failed, whatever the command did, and
/// otherwise that of the command's end: 0 done, 1 refused, 2 invalid arguments.
pub fn status(end: CommandEnd, failed: bool) -> u8
    ensures { result ≡ status_of end failed }
{
    if failed {
        return 1;
    }
    end.status()
}

/// Runs the command that the arguments give over these ports, prints on `out` what it prints and on
/// `err` why it stopped, and gives how it ended. If it opened an office's files and closed them
/// whole, it also hands on what the port gave back of them.
pub fn run_over<M: Machine, O: Write, E: Write>(
    alloc: Global,
    ports: Ports<M>,
    words: &[&str],
    out: &mut Watched<'_, O>,
    err: &mut Watched<'_, E>,
) -> Ended<<M::Office as OfficeFile>::Medium>
    ensures { IsProgramRun (over_files {g = M.Office.Medium.Disk}) (machine_of ports result.back)
        (map (λ w. w.now) words.now) (outputs out.old out.new err.old err.new) result.end }
{
    let Ok(line) = meant(alloc, words) else {
        leave_all(ports.office, ports.texts, ports.door, ports.loopback);
        put_refusal(Refusal::Memory, err);
        return Ended {
            end: CommandEnd::Refused,
            back: None,
        };
    };
    match parse(alloc, &line) {
        Ok(matches) => match Asked::read(alloc, &matches) {
            Ok(asked) => answer(alloc, ports, asked, out, err),
            Err(fault) => {
                leave_all(ports.office, ports.texts, ports.door, ports.loopback);
                let end = refuse(fault, err);
                Ended { end, back: None }
            }
        },
        Err(error) => {
            leave_all(ports.office, ports.texts, ports.door, ports.loopback);
            let end = explain(alloc, &error, out, err);
            Ended { end, back: None }
        }
    }
}

// Uses nothing of the machine.
fn leave_all<H: OfficeFile, F: TextFiles, D: Door, L: Loopback>(
    office: H,
    texts: F,
    door: D,
    loopback: L,
)
    ensures office { H.leaves H office }
    ensures texts { F.leaves F texts }
    ensures door { D.leaves D door }
    ensures loopback { L.leaves L loopback }
{
    H::leave(office);
    be_alone(texts, door, loopback);
}

// Has nobody connect, and reads no file.
fn be_alone<F: TextFiles, D: Door, L: Loopback>(texts: F, door: D, loopback: L)
    ensures texts { F.leaves F texts }
    ensures door { D.leaves D door }
    ensures loopback { L.leaves L loopback }
{
    F::leave(texts);
    go_offline(door, loopback);
}

// Has nobody connect.
fn go_offline<D: Door, L: Loopback>(door: D, loopback: L)
    ensures door { D.leaves D door }
    ensures loopback { L.leaves L loopback }
{
    D::leave(door);
    L::leave(loopback);
}

// Does what is asked.
fn answer<M: Machine, O: Write, E: Write>(
    alloc: Global,
    ports: Ports<M>,
    asked: Asked<'_, '_>,
    out: &mut Watched<'_, O>,
    err: &mut Watched<'_, E>,
) -> Ended<<M::Office as OfficeFile>::Medium>
    ensures { IsCarriedOut (over_files {g = M.Office.Medium.Disk}) (machine_of ports result.back)
        asked.entry (outputs out.old out.new err.old err.new) result.end }
{
    match asked {
        Asked::Office(words) => ask_office(alloc, ports, words, out, err),
        Asked::Trial(words) => {
            leave_all(ports.office, ports.texts, ports.door, ports.loopback);
            let mut clock = ports.clock;
            let end = trial::run(&words, alloc, &mut clock, out, err);
            Ended { end, back: None }
        }
        Asked::Meter(words) => {
            leave_all(ports.office, ports.texts, ports.door, ports.loopback);
            let end = meter::run(&words, out);
            Ended { end, back: None }
        }
        Asked::Quote(words) => {
            leave_all(ports.office, ports.texts, ports.door, ports.loopback);
            let end = quote::run(&words, out, err);
            Ended { end, back: None }
        }
        Asked::Serve(words) => {
            M::Texts::leave(ports.texts);
            M::Loopback::leave(ports.loopback);
            let mut clock = ports.clock;
            commands::serve::run(&words, alloc, ports.office, ports.door, &mut clock, err)
        }
        Asked::Selfcheck(words) => {
            M::Office::leave(ports.office);
            M::Texts::leave(ports.texts);
            M::Door::leave(ports.door);
            let end = run_selfcheck(&words, alloc, ports.loopback, out, err);
            Ended { end, back: None }
        }
        Asked::Audit(words) => {
            be_alone(ports.texts, ports.door, ports.loopback);
            let mut progress = ports.progress;
            file_audit::run(&words, alloc, ports.office, &mut progress, out, err)
        }
    }
}

// Asks the office that the words name.
fn ask_office<M: Machine, O: Write, E: Write>(
    alloc: Global,
    ports: Ports<M>,
    words: OfficeWords<'_>,
    out: &mut Watched<'_, O>,
    err: &mut Watched<'_, E>,
) -> Ended<<M::Office as OfficeFile>::Medium>
    ensures { IsOfficeAsked (over_files {g = M.Office.Medium.Disk}) (machine_of ports result.back)
        words.entry.place words.entry.ask words.entry.json
        (outputs out.old out.new err.old err.new) result.end }
{
    let OfficeWords { place, ask, json } = words;
    match place {
        Place::File(file) => {
            go_offline(ports.door, ports.loopback);
            let mut clock = ports.clock;
            let mut progress = ports.progress;
            at_file::run(
                &file,
                ask,
                json,
                alloc,
                ports.office,
                ports.texts,
                &mut clock,
                &mut progress,
                out,
                err,
            )
        }
        Place::Desk(address) => {
            M::Office::leave(ports.office);
            M::Door::leave(ports.door);
            let end = at_desk::run(
                address,
                &ask,
                json,
                alloc,
                ports.texts,
                ports.loopback,
                out,
                err,
            );
            Ended { end, back: None }
        }
    }
}

/// Tells why words were not read.
pub fn refuse<E: Write>(fault: BadWords, err: &mut Watched<'_, E>) -> CommandEnd
    ensures told { Takes err.old err.new (bad_words_line fault) }
    ensures end { result ≡ bad_words_end fault }
{
    match fault {
        BadWords::Value => {
            put_line(&[b"bad", b"word"], err);
            CommandEnd::BadWords
        }
        BadWords::Place => {
            put_line(&[b"give", b"--file", b"or", b"--desk"], err);
            CommandEnd::BadWords
        }
        BadWords::Memory => {
            put_refusal(Refusal::Memory, err);
            CommandEnd::Refused
        }
    }
}

// Says what is wrong with words that are no command's, or gives the help that they call for.
fn explain<X: Explanation, O: Write, E: Write>(
    alloc: Global,
    error: &X,
    out: &mut Watched<'_, O>,
    err: &mut Watched<'_, E>,
) -> CommandEnd
    ensures { let o = outputs out.old out.new err.old err.new in
        IsTold o [] (refusal_line Memory) CommandEnd.Refused result
        ⊎ ((text : Text) × X.says error.now text × (text ≢ [])
        × IsExplained (X.kind error.now) text o result) }
{
    let kind = error.kind();
    if kind == ErrorKind::OutOfMemory {
        put_refusal(Refusal::Memory, err);
        return CommandEnd::Refused;
    }
    let Ok(text) = error.text(alloc) else {
        put_refusal(Refusal::Memory, err);
        return CommandEnd::Refused;
    };
    match kind {
        ErrorKind::DisplayHelp | ErrorKind::DisplayVersion => {
            out.put(text.as_bytes());
            CommandEnd::Done
        }
        _ => {
            err.put(text.as_bytes());
            CommandEnd::BadWords
        }
    }
}
