ghost use Rattle.std.specs.Prelude.{◌≡◌, ℕ, ◌≤◌, Bool, false, map, IfSome, Option};
ghost use Rattle.sqlite.specs.Files.{over_files};
ghost use Rattle.command_line.specs.Asked.{AskFor};
ghost use Rattle.command_line.specs.declared.asked.Asked.{Asked};
ghost use Rattle.vend_commands.specs.Run.{IsProgramRun};
ghost use Rattle.vend_commands.specs.commands.Unread.{bad_words_end, bad_words_line};
ghost use Rattle.vend_commands.specs.port.Machines.{machine_of};
ghost use Rattle.vend_ports.specs.Status.{exit_status_of, status_of};
ghost use Rattle.vend_ports.specs.declared.command_end.CommandEnd.{CommandEnd};
ghost use Rattle.vend_ports.specs.print.Sink.{Held, writer};
ghost use Rattle.vend_ports.specs.print.Told.{IsTaken, outputs};
ghost use Rattle.terminal_advice.specs.Advised.{Adds, IsAdvised, IsPut, fault_advice};
ghost use Rattle.terminal_advice.specs.Doubt.{Doubts, IsDoubted};

use crate::advice::Advice;
use crate::begun::Begun;
use crate::doubt::{Doubt, doubt_over, say_doubt};
use crate::look::Look;
use crate::remembering::Remembering;
use crate::second_line::{advise, put_advice};
use command_line::BadWords;
use office_rules::Refusal;
use std::alloc::Global;
use std::io::Write;
use vend_commands::{Machine, Ports, Watched, refuse, run};

/// Runs the command that some words give as `run` does. At a terminal a second line comes behind
/// the last one, if there is advice for that; and one more, if the command sells by a clock that
/// looks wrong. `B` stands for what `err` holds before, which is given back.
pub fn run_advised<B: Begun, M: Machine, O: Write, E: Write, L: Look>(
    alloc: Global,
    ports: Ports<M>,
    words: &[&str],
    look: &L,
    at_terminal: bool,
    out: &mut O,
    err: E,
) -> (u8, E)
    requires { E.contents err ≡ B.held }
    ensures run { (printed advised : Held) × (end : CommandEnd) × (out_failed err_failed : Bool)
        × (out_name err_name : ℕ) × (back : Option (M.Office.Medium × M.Office.Medium))
        × IsProgramRun (over_files {g = M.Office.Medium.Disk}) (machine_of ports back)
        (map (λ w. w.now) words.now)
        (outputs (writer (O.contents out.old) false out_name)
        (writer (O.contents out.new) out_failed out_name)
        (writer (E.contents err) false err_name)
        (writer printed err_failed err_name)) end
        × (result.0 ≡ status_of end out_failed)
        × ∥ IsAdvised at_terminal (E.contents err) printed advised ∥₁
        × Doubts at_terminal (IsDoubted (L.is_last look.now) (L.is_now look.now)
        (map (λ w. w.now) words.now)) advised (E.contents result.1) }
    ensures asked { (asked : Asked) → AskFor (map (λ w. w.now) words.now) asked → result.0 ≤ 1 }
{
    let doubt = doubt_at(alloc, words, look, at_terminal);
    let mut remembering = Remembering::<E, B>::new(err);
    let status = run(alloc, ports, words, out, &mut remembering);
    let (mut err, last) = remembering.into_parts();
    if !at_terminal {
        return (status, err);
    }
    advise(alloc, words, look, &last, &mut err);
    say_doubt(doubt, &mut err);
    (status, err)
}

// What is doubted before a run, at a terminal alone: elsewhere nothing is looked at.
fn doubt_at<L: Look>(alloc: Global, words: &[&str], look: &L, at_terminal: bool) -> Option<Doubt>
    ensures { IfSome result (IsDoubted (L.is_last look.now) (L.is_now look.now)
        (map (λ w. w.now) words.now)) }
{
    if at_terminal {
        doubt_over(alloc, words, look)
    } else {
        None
    }
}

/// Tells why the words of a command were not had, and at a terminal what that means.
pub fn refuse_advised<E: Write>(fault: BadWords, at_terminal: bool, err: &mut E) -> u8
    ensures status { result ≡ exit_status_of (bad_words_end fault) }
    ensures told { (printed : Held) × (failed : Bool)
        × IsTaken false failed (E.contents err.old) printed (bad_words_line fault)
        × Adds at_terminal (IsPut (fault_advice fault)) printed (E.contents err.new) }
{
    let mut watched = Watched::new(err);
    let end = refuse(fault, &mut watched);
    let err = watched.into_inner();
    if !at_terminal {
        return end.status();
    }
    put_advice(fault_advice(fault), err);
    end.status()
}

// What is said of words that were not had.
fn fault_advice(fault: BadWords) -> Advice
    ensures { result ≡ fault_advice fault }
{
    match fault {
        BadWords::Memory => Advice::Refused(Refusal::Memory),
        BadWords::Place => Advice::Place,
        _ => Advice::NoText,
    }
}
