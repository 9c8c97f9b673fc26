//! The names that the making of a pair is about.
ghost use Rattle.std.specs.Prelude.{◌≡◌};
ghost use Rattle.oram_pair.specs.Notes.{name_of};

/// A name of one of the two files.
#[derive(Clone, Copy, Debug, PartialEq, Eq)]
pub enum PairName {
    /// The name that the file of records is to have.
    File,
    /// The name that the log is to have.
    Log,
    /// The name under which the file is made.
    NewFile,
    /// The name under which the log is made.
    NewLog,
}

impl PairName {
    /// Returns the number that stands for the name in a note.
    pub(crate) fn number(self) -> u64
        ensures { name_of result ≡ self }
    {
        match self {
            PairName::File => 1,
            PairName::Log => 2,
            PairName::NewFile => 3,
            PairName::NewLog => 4,
        }
    }
}
