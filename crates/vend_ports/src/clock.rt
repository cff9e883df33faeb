ghost use Rattle.vend_ports.specs.commands.Timed.{IsTakenMoment};
ghost use Rattle.vend_ports.specs.port.Dial.{dial_of};

use conversation::Clock;
use sts_fields::Moment;

/// The moment that was given (by `--at`), or else the clock's, which is read then and not before.
/// `None` if no moment was given and the clock is outside 1993 to 2099.
pub fn moment_or_now<C: Clock>(given: Option<Moment>, clock: &mut C) -> Option<Moment>
    ensures { IsTakenMoment given (dial_of C.Clock clock.old) result }
{
    match given {
        Some(moment) => Some(moment),
        None => Moment::of_secs(clock.now()),
    }
}
