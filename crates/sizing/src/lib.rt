// Both sizes of a book and of a table as the one number that a function for C gives (document 01, "host door").
#![tactic(auto)]

ghost use Rattle.std.specs.Prelude.{◌≡◌};
ghost use Rattle.books.specs.Answer.{book_outcome};
ghost use Rattle.decoder.specs.Answer.{table_outcome};
ghost use Rattle.packing.specs.Packed.{packed, packed_byte, Legible, LegibleByte};
ghost use Rattle.sizing.specs.Sizes.{book_size, table_size};

use answers::Refusal;
use books::Book;
use packing::{pack, pack_byte, pack_refusal};
use steps::Size;

// Of reading a book: K × 256 + the number of rules, or the refusal with its byte.
pub fn pack_book(answer: Result<Book, Refusal>) -> u64
    requires { LegibleByte (book_size (book_outcome answer)) }
    ensures { result ≡ packed_byte (book_size (book_outcome answer)) }
{
    match answer {
        Ok(book) => pack(usize::from(book.tags) * 256 + book.rules, 0),
        Err(given) => pack_byte(given),
    }
}

// Of reading a table: K × 65,536 + S, or the refusal.
pub fn pack_table(answer: Result<Size, Refusal>) -> u64
    requires { Legible (table_size (table_outcome answer)) }
    ensures { result ≡ packed (table_size (table_outcome answer)) }
{
    match answer {
        Ok(size) => pack(size.tags * 65536 + size.states, 0),
        Err(given) => pack_refusal(given),
    }
}
