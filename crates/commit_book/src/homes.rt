use crate::book::Book;
use gx_base::Homed;

impl Homed for Book {
    ghost use Rattle.commit_book.specs.Homes.{room_view, book_alone};
    ghost use Rattle.commit_book.specs.LawfulBooks.{IsLawfulBook};

    ghost told = { λ book. room_view book };

    ghost lawful = { λ book. IsLawfulBook book };

    ghost alone = { λ book _ no_book worker. book_alone book worker no_book };
}
