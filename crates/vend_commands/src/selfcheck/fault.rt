use books::OpenFault;
use office_rules::Refusal;

/// Why a selfcheck did not find the replies that it looked for.
#[derive(Clone, Copy, Debug, PartialEq, Eq)]
pub enum SelfcheckFault {
    /// The connection failed, or other bytes came over it.
    Net,
    /// No office is opened in memory.
    Unopened(OpenFault),
    /// A request that prepares the office is refused, or memory is short.
    Refused(Refusal),
}
