//! The catalogue of a book: its scores on a shelf.
use crate::load::Loaded;
use crate::trouble::Trouble;
use book::lines::Withdrawal;
use catalogue::Catalogue;
use shelf::table::Shelf;

// Withdraws what the book says is withdrawn.
fn withdraw_all<C: Catalogue>(catalogue: &mut C, withdrawn: &[Withdrawal]) {
    for entry in withdrawn {
        catalogue.withdraw(entry.number);
    }
}

/// A shelf with the scores of the book, in the order of their lines.
pub fn shelf_of(loaded: &Loaded) -> Result<Shelf, Trouble> {
    let mut shelf = Shelf::new();
    for (line, piece) in loaded.book.scores.lines.iter().zip(loaded.scores.iter()) {
        shelf.shelve(line.path.as_slice(), line.number, *piece)?;
    }
    withdraw_all(&mut shelf, loaded.book.withdrawn.as_slice());
    Ok(shelf)
}
