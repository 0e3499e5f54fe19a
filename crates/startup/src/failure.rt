// Why something that was asked could not be done, in the words that the program says on standard error.
use std::alloc::AllocError;
use std::{fmt, io};

// The list of the parts that are measured where no file is named.
pub const LIST: &str = "parts.txt";

#[derive(Debug, Drop)]
pub enum Failure<'a> {
    // a file that cannot be read or made
    File { name: &'a str, error: io::Error },
    // no file is named, and the list of parts cannot be read
    NoList(io::Error),
    // a file that is no image, and how many bytes it has
    NoImage { name: &'a str, len: usize },
    // an image that does not give its cells
    NoCells,
    NoCommand(&'a str),
    NoNumber(&'a str),
    // both words, each told on a line of its own
    NoNumbers(&'a str, &'a str),
    // what a command takes
    Usage(&'static str),
    // standard output that cannot be written, or too little memory
    System(io::Error),
}

impl fmt::Display for Failure<'_> {
    fn fmt<W: fmt::Write>(&self, f: &mut fmt::Formatter<W>) -> fmt::Result {
        match self {
            Failure::File { name, error } => write!(f, "{name}: {error}"),
            Failure::NoList(error) => write!(
                f,
                "{LIST}: {error}\nstartup: name the files, as in startup measure FILE..., or list them in {LIST}"
            ),
            Failure::NoImage { name, len } => write!(
                f,
                "{name}: its {len} bytes are neither a cell image nor a strip image"
            ),
            Failure::NoCells => write!(f, "the store does not give its cells"),
            Failure::NoCommand(word) => {
                write!(f, "no command {word:?}; startup --help says what there is")
            }
            Failure::NoNumber(word) => write!(f, "{word:?} is no number from 0 to 65535"),
            Failure::NoNumbers(first, second) => write!(
                f,
                "{first:?} is no number from 0 to 65535\nstartup: {second:?} is no number from 0 to 65535"
            ),
            Failure::Usage(line) => write!(f, "{line}"),
            Failure::System(error) => write!(f, "{error}"),
        }
    }
}

impl std::error::Error for Failure<'_> {}

impl From<io::Error> for Failure<'_> {
    fn from(error: io::Error) -> Self {
        Failure::System(error)
    }
}

impl From<AllocError> for Failure<'_> {
    fn from(error: AllocError) -> Self {
        Failure::System(io::Error::from(error))
    }
}
