/// The methods that the desk answers.
#[derive(Clone, Copy, Debug, PartialEq, Eq, Hash)]
pub enum Method {
    Get,
    Post,
    Delete,
    /// As `Get`, but the reply is to have no body.
    Head,
}
