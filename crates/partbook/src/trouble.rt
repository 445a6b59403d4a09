//! Why the program could not do what it was asked.
use book::faults::BookError;
use budget::limits::LimitField;
use catalogue::answers::CatalogueError;
use fragment::answers::FragmentError;
use notation::fault::TextError;
use notation::line::PrintError;
use std::alloc::{AllocError, AllocFailed};
use std::{fmt, io};

/// The number of the refusal of a limit that is too large.
const TOO_LARGE_A_LIMIT: u32 = 23;

/// What ends the program.
#[derive(Drop)]
pub enum Trouble {
    /// The call says nothing that the program can do.
    Usage,
    /// A file could not be read.
    File(String, io::Error),
    /// A line of a `book.txt`.
    Book(String, BookError),
    /// A `book.txt` names a file by bytes that are no text.
    Name(String),
    /// A line of a score.
    Score(String, TextError),
    /// The catalogue refuses.
    Catalogue(CatalogueError),
    /// A passage is refused.
    Passage(FragmentError),
    /// A limit is too large.
    Limit(LimitField),
    /// An option that says nothing.
    Option(String),
    /// An event that no line of event notation stands for.
    Unprintable,
    /// Arguments could not be read, or the output not be written.
    Io(io::Error),
    /// No memory was left.
    OutOfMemory,
}

// By hand, here and below: the derive of `thiserror` takes no message in which a field stands beside a number that is made of it.
impl From<AllocError> for Trouble {
    fn from(_e: AllocError) -> Trouble {
        Trouble::OutOfMemory
    }
}

impl<T: Drop> From<AllocFailed<T>> for Trouble {
    fn from(_e: AllocFailed<T>) -> Trouble {
        Trouble::OutOfMemory
    }
}

impl From<PrintError> for Trouble {
    fn from(e: PrintError) -> Trouble {
        match e {
            PrintError::Unprintable => Trouble::Unprintable,
            PrintError::OutOfMemory => Trouble::OutOfMemory,
        }
    }
}

// What is written goes to a text in memory, so that it fails only for want of memory.
impl From<fmt::Error> for Trouble {
    fn from(_e: fmt::Error) -> Trouble {
        Trouble::OutOfMemory
    }
}

impl From<CatalogueError> for Trouble {
    fn from(e: CatalogueError) -> Trouble {
        Trouble::Catalogue(e)
    }
}

impl From<FragmentError> for Trouble {
    fn from(e: FragmentError) -> Trouble {
        Trouble::Passage(e)
    }
}

impl From<LimitField> for Trouble {
    fn from(e: LimitField) -> Trouble {
        Trouble::Limit(e)
    }
}

impl From<io::Error> for Trouble {
    fn from(e: io::Error) -> Trouble {
        Trouble::Io(e)
    }
}

fn write_refusal<W: fmt::Write, E: fmt::Display>(
    f: &mut fmt::Formatter<W>,
    number: u32,
    error: &E,
) -> fmt::Result {
    writeln!(f, "partbook: refusal {number}: {error}")
}

impl fmt::Display for Trouble {
    fn fmt<W: fmt::Write>(&self, f: &mut fmt::Formatter<W>) -> fmt::Result {
        match self {
            Trouble::Usage => f.write_str(crate::command::USAGE),
            Trouble::File(path, error) => writeln!(f, "partbook: {path}: {error}"),
            Trouble::Book(path, error) => writeln!(f, "partbook: {path}: {error}"),
            Trouble::Name(path) => writeln!(f, "partbook: {path}: the name of a file is not UTF-8"),
            Trouble::Score(path, error) => writeln!(f, "partbook: {path}: {error}"),
            Trouble::Catalogue(error) => write_refusal(f, u32::from(*error), error),
            Trouble::Passage(error) => write_refusal(f, u32::from(*error), error),
            Trouble::Limit(field) => write_refusal(f, TOO_LARGE_A_LIMIT, field),
            Trouble::Option(word) => writeln!(
                f,
                "partbook: {word}: write NAME=NUMBER, with the name of a limit"
            ),
            Trouble::Unprintable => f.write_str("partbook: an event cannot be printed\n"),
            Trouble::Io(error) => writeln!(f, "partbook: {error}"),
            Trouble::OutOfMemory => f.write_str("partbook: out of memory\n"),
        }
    }
}
