//! What the calls answer.
use crate::calls::Call;
use crate::items::path_of_many;
use binder::state::Binder;
use catalogue::Catalogue;
use catalogue::answers::{CatalogueError, Found, Unresolved};
use events::score::Piece;
use shelf::table::Shelf;
use std::alloc::{AllocError, Global};

fn refused(heap: Global, error: CatalogueError) -> Result<String, AllocError> {
    let number = u32::from(error);
    let value = error.value();
    format!(in heap; "refused {number}: {value}")
}

fn accepted(
    heap: Global,
    word: &str,
    answer: Result<(), CatalogueError>,
) -> Result<String, AllocError> {
    match answer {
        Ok(()) => String::from_str(heap, word),
        Err(error) => refused(heap, error),
    }
}

fn resolved(heap: Global, answer: Result<Found, Unresolved>) -> Result<String, AllocError> {
    match answer {
        Ok(Found { number, piece }) => {
            let Piece {
                marks,
                events,
                text_len,
            } = piece;
            format!(in heap;
                "found {number} {}+{} {}+{} {text_len}",
                marks.start, marks.len, events.start, events.len
            )
        }
        Err(Unresolved::Withdrawn) => String::from_str(heap, "withdrawn"),
        Err(Unresolved::Unknown) => String::from_str(heap, "unknown"),
    }
}

// A call that every catalogue has.
fn common<C: Catalogue>(
    heap: Global,
    catalogue: &mut C,
    call: &Call,
) -> Result<String, AllocError> {
    match call {
        Call::Resolve(path) => resolved(heap, catalogue.resolve(path.as_slice())),
        Call::Withdraw(number) => {
            let stood = catalogue.withdraw(*number);
            format!(in heap; "stood {stood}")
        }
        _ => String::from_str(heap, "bad line"),
    }
}

// Shelves entries until one is refused.
fn shelve_many(shelf: &mut Shelf, count: u16) -> Result<(), CatalogueError> {
    for i in 0..count {
        shelf.shelve(&path_of_many(i), u32::from(i) + 1, Piece::default())?;
    }
    Ok(())
}

/// Which catalogue is asked: the one that a line made last.
#[derive(Clone, Copy)]
enum Asked {
    Shelf,
    Binder,
}

/// The catalogues that the lines so far made.
#[derive(Drop)]
pub struct Tried<'a> {
    shelf: Shelf,
    binder: Binder<'a>,
    asked: Asked,
}

impl<'a> Tried<'a> {
    pub fn new() -> Tried<'a> {
        Tried {
            shelf: Shelf::new(),
            binder: Binder::new(),
            asked: Asked::Shelf,
        }
    }

    // Makes a new catalogue of a sort, to be asked from then on.
    fn make(&mut self, asked: Asked) {
        match asked {
            Asked::Shelf => self.shelf = Shelf::new(),
            Asked::Binder => self.binder = Binder::new(),
        }
        self.asked = asked;
    }

    // A call on the catalogue that is asked.
    fn ask(&mut self, heap: Global, call: &Call) -> Result<String, AllocError> {
        match self.asked {
            Asked::Shelf => common(heap, &mut self.shelf, call),
            Asked::Binder => common(heap, &mut self.binder, call),
        }
    }

    /// What a call answers.
    pub fn answer(
        &mut self,
        heap: Global,
        line: &str,
        call: &'a Call,
    ) -> Result<String, AllocError> {
        match call {
            Call::Copy => String::from_str(heap, line),
            Call::Shelf => {
                self.make(Asked::Shelf);
                String::from_str(heap, "shelf")
            }
            Call::Binder => {
                self.make(Asked::Binder);
                String::from_str(heap, "binder")
            }
            Call::Shelve {
                path,
                number,
                piece,
            } => accepted(
                heap,
                "shelved",
                self.shelf.shelve(path.as_slice(), *number, *piece),
            ),
            Call::ShelveMany(count) => accepted(
                heap,
                "shelved",
                shelve_many(&mut self.shelf, *count),
            ),
            Call::Bind(bytes) => accepted(heap, "bound", self.binder.bind(bytes.as_slice())),
            Call::Resolve(_) | Call::Withdraw(_) => self.ask(heap, call),
        }
    }
}
