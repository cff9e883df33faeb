/// The files that an import comes as.
#[derive(Clone, Copy, Debug, PartialEq, Eq, Hash)]
pub enum FileKind {
    Meters,
    Tariffs,
}
