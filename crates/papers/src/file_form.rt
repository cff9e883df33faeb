/// The forms of the files that an import comes as: each has a header, and rules for its fields.
#[derive(Clone, Copy)]
pub(crate) enum FileForm {
    Meters,
    /// Tariffs with their first steps.
    Tariffs,
    /// Steps of tariffs, with the day from which they hold.
    DatedTariffs,
}
