//! What the program is asked to do.

/// How to call the program.
pub const USAGE: &str = "usage: partbook inspect BOOK
       partbook unfold BOOK PATH ANCHOR [--limit NAME=NUMBER]..
       partbook --help

inspect   reads the folder BOOK, with its book.txt and its scores in event
          notation, and prints for each score its size, its marks, whether it
          is sound, and each insert with its place, path and anchor, or why it
          is refused.
unfold    prints the passage ANCHOR of the score PATH in event notation, each
          alias replaced by the node that it stands for, and its figures on
          standard error; or why it is refused. --limit sets a limit by its
          name, as max_aliases=100.
";

/// A passage that is to be unfolded: a book, a path, an anchor, and the words of options.
#[derive(Clone, Copy)]
pub struct UnfoldCall<'a> {
    pub book: &'a str,
    pub path: &'a str,
    pub anchor: &'a str,
    pub options: &'a [String],
}

/// A call of the program.
#[derive(Clone, Copy)]
pub enum Command<'a> {
    Help,
    Inspect(&'a str),
    Unfold(UnfoldCall<'a>),
}

/// The command that the words after the program's name say, if they say one.
pub fn command_of(words: &[String]) -> Option<Command<'_>> {
    match words {
        [word] if word.as_str() == "--help" => Some(Command::Help),
        [word, book] if word.as_str() == "inspect" => Some(Command::Inspect(book.as_str())),
        [word, book, path, anchor, ..] if word.as_str() == "unfold" => Some(Command::Unfold(
            UnfoldCall {
                book: book.as_str(),
                path: path.as_str(),
                anchor: anchor.as_str(),
                options: &words[4..],
            },
        )),
        _ => None,
    }
}
