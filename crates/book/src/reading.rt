//! A `book.txt` is read line by line.
ghost use Rattle.std.specs.Prelude.{◌≡◌, ◌≤◌, true, ◌⊎◌, IfOk, Ok, Err, vec_len, MatchResult};
ghost use Rattle.std.specs.List.{list_all};
ghost use Rattle.slices.specs.Lines.{lines_of};
ghost use Rattle.book.specs.Books.{add_main, add_score, add_withdrawal, add_entry, add_line, add_lines, finished, book_of};
ghost use Rattle.book.specs.BookView.{said, said_draft};
ghost use Rattle.book.specs.EntryView.{said_entry};
ghost use Rattle.book.specs.Laws.{HasEntries};
ghost use Rattle.book.specs.Lookups.{distinct, is_known};
ghost use Rattle.book.specs.Said.{empty_draft};
ghost use Rattle.book.specs.View.{Answers, said_score, said_scores};
ghost use Rattle.book.specs.declared.faults.BookFault.TheVariants.{OutOfMemory};

use crate::contents::{Book, Draft};
use crate::entries::{Entry, read_entry};
use crate::faults::{BookError, BookFault};
use crate::lines::{ScoreLine, Withdrawal};
use crate::scores::Scores;
use slices::lines::Lines;
use std::alloc::Global;

impl Draft {
    fn new(heap: Global) -> Draft
        ensures empty { said_draft result ≡ empty_draft }
    {
        Draft {
            main: None,
            scores: Scores::new(heap),
            withdrawn: Vec::new(heap),
        }
    }

    fn add_main(&mut self, file: Vec<u8>) -> Result<(), BookFault>
        ensures value { Answers (λ _. said_draft self.new) (add_main file.items (said_draft self.old)) result }
    {
        if self.main.is_some() {
            return Err(BookFault::SecondMain);
        }
        self.main = Some(file);
        Ok(())
    }

    fn add_score(&mut self, score: ScoreLine) -> Result<(), BookFault>
        ensures value { Answers (λ _. said_draft self.new) (add_score (said_score score) (said_draft self.old)) result }
    {
        self.scores.add(score)
    }

    fn add_withdrawal(&mut self, entry: Withdrawal) -> Result<(), BookFault>
        ensures value { Answers (λ _. said_draft self.new) (add_withdrawal entry (said_draft self.old)) result }
    {
        self.withdrawn.push(entry)?;
        Ok(())
    }

    fn add(&mut self, entry: Entry, line: usize) -> Result<(), BookFault>
        ensures value { Answers (λ _. said_draft self.new) (add_entry line (said_entry entry) (said_draft self.old)) result }
    {
        match entry {
            Entry::Main(file) => self.add_main(file),
            Entry::Score(score) => self.add_score(score),
            Entry::Withdrawn(number) => self.add_withdrawal(Withdrawal { number, line }),
        }
    }

    fn add_line(&mut self, heap: Global, text: &[u8], line: usize) -> Result<(), BookFault>
        ensures value { Answers (λ _. said_draft self.new) (add_line line text.now (said_draft self.old)) result }
    {
        match read_entry(heap, text)? {
            Some(entry) => self.add(entry, line),
            None => Ok(()),
        }
    }

    fn add_text(&mut self, heap: Global, text: &[u8]) -> Result<(), BookError>
        ensures value { MatchResult result (λ _. add_lines 1 (lines_of text.now) (said_draft self.old) ≡ Ok (said_draft self.new)) (λ e. (e.fault ≡ OutOfMemory) ⊎ (add_lines 1 (lines_of text.now) (said_draft self.old) ≡ Err e)) }
    {
        for (index, text) in Lines::of(text).enumerate() {
            self.add_line(heap, text, index + 1)
                .map_err(|fault| BookError {
                    line: Some(index + 1),
                    fault,
                })?;
        }
        Ok(())
    }

    // The book, once every line is read.
    fn finish(self) -> Result<Book, BookError>
        ensures value { MatchResult result (λ b. finished (said_draft self) ≡ Ok (said b)) (λ e. finished (said_draft self) ≡ Err e) }
    {
        let Draft {
            main,
            scores,
            withdrawn,
        } = self;
        // As a `map_or` behind `?` it would be no plainer.
        if let Some(line) = scores.first_unknown(withdrawn.as_slice()) {
            return Err(BookError {
                line: Some(line),
                fault: BookFault::UnknownWithdrawn,
            });
        }
        let Some(main) = main else {
            return Err(BookError {
                line: None,
                fault: BookFault::NoMain,
            });
        };
        Ok(Book {
            main,
            scores,
            withdrawn,
        })
    }
}

/// Reads the text of a `book.txt`.
pub fn read_book(heap: Global, text: &[u8]) -> Result<Book, BookError>
    ensures is_the_book_of_the_text { MatchResult result (λ b. book_of text.now ≡ Ok (said b)) (λ e. (e.fault ≡ OutOfMemory) ⊎ (book_of text.now ≡ Err e)) }
    ensures has_the_entries_of_its_lines { IfOk result (λ b. HasEntries (lines_of text.now) (said b)) }
    ensures at_most_256_scores { IfOk result (λ b. vec_len b.scores.lines ≤ 256) }
    ensures paths_are_distinct { IfOk result (λ b. distinct (said_scores b.scores.lines.items) ≡ true) }
    ensures withdrawn_numbers_are_known { IfOk result (λ b. list_all (is_known (said_scores b.scores.lines.items)) b.withdrawn.items ≡ true) }
{
    let mut draft = Draft::new(heap);
    draft.add_text(heap, text)?;
    draft.finish()
}
