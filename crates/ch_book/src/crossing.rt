//! That books and seats cross threads wherever their values may: another thread shares the book,
//! and a seat goes there and comes back. The check proves it here once, for all values, and not
//! first where a crate above starts a thread.
ghost use Rattle.std.specs.Prelude.{◌≡◌};
ghost use Rattle.ch_book.specs.Books.{HoldsAll, IsOf, number_of, owns};

use crate::book::Book;
use crate::seat::Seat;
use ch_session::{Made, Session};
use std::alloc::Global;
use std::thread::{Threads, join};

fn read_news<V: Made + Drop>(book: &Book<V>, mut seat: Seat<V>) -> Seat<V>
    requires { IsOf book.now (number_of seat) seat }
    ensures { IsOf book.now (number_of seat) result × (owns result ≡ owns seat) }
{
    book.news(&mut seat);
    seat
}

/// Another thread reads the news through a seat of its own, and the book is closed once that seat
/// is back.
pub(crate) fn cross<V: Made + Drop + Send + Sync, R: Threads + Sync>(
    rt: &R,
    alloc: Global,
    book: Book<V>,
    mut seat: Seat<V>,
) -> Session<V>
    requires { IsOf book 65535 seat × HoldsAll seat }
{
    let Ok(other) = book.split(alloc, &mut seat, 0, 0) else {
        unreachable!()
    };
    let shared = &book;
    let (other, seen) = join(
        rt,
        move || -> Seat<V>
            requires { IsOf shared.now (number_of other) other }
            ensures { IsOf shared.entry.now (number_of other) result × (owns result ≡ owns other) }
        { read_news(shared, other) },
        move || -> Seat<V>
            requires { IsOf shared.now (number_of seat) seat }
            ensures { IsOf shared.entry.now (number_of seat) result × (owns result ≡ owns seat) }
        { read_news(shared, seat) },
    );
    let mut seat = seen;
    book.join(&mut seat, other);
    book.close(seat)
}
