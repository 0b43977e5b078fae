// What can be wrong with a file, each with its number of the table.
ghost use Rattle.std.specs.Prelude.{◌≡◌};
ghost use Rattle.report.specs.inside.Error.{error_number};

#[derive(Clone, Copy, PartialEq, Eq, Debug)]
pub(crate) enum FileError {
    // The file ends before its last block is whole, or bytes follow that block.
    WrongLength,
    // The words of a block do not add to 0.
    WrongSum,
    // A block has another kind, number or count than its place asks.
    UnexpectedBlock,
    // A spare word is not zero.
    SpareWord,
    // More vertices or elements than `plot` takes.
    TooLarge,
    // More fields than places, or a field of an unknown kind.
    UnknownField,
}

impl From<FileError> for u32 {
    ghost from_gives = { λ error n. n ≡ error_number error };

    fn from(error: FileError) -> u32 {
        match error {
            FileError::WrongLength => 1,
            FileError::WrongSum => 2,
            FileError::UnexpectedBlock => 3,
            FileError::SpareWord => 30,
            FileError::TooLarge => 10,
            FileError::UnknownField => 11,
        }
    }
}
