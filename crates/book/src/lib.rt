// The words of a book, opening it, its rows, and the join of two rows.
#![tactic(auto)]

mod counts;
mod cursor;
mod entries;
mod joining;
mod laid;
mod meeting;
mod names;
mod opened;
mod opening;
mod row;
mod rows;
mod sections;
mod span;
mod told;
mod worked;
mod written;

pub use counts::Counts;
pub use joining::join_rows;
pub use meeting::rows_are_rows;
pub use opened::Book;
pub use opening::open;
pub use span::Span;
pub use worked::six_junctions_answered;
pub use written::words_are_a_book;
