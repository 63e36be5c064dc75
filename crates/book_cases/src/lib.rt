// Worked cases of the image and of the book, as one proved table.
#![tactic(auto)]

ghost use Rattle.std.specs.Prelude.{◌≡◌, length};
ghost use Rattle.kinds.specs.Accounts.{account};
ghost use Rattle.book_cases.specs.Cases.{Worked, empty_book};
ghost use Rattle.images.specs.Images.{head_of};
ghost use Rattle.records.specs.Framing.{bytes_of};

use kinds::accounts::Account;
use lines::traits::Coded;
use records::frames::{Record, write_record};
use records::heads::{Head, Mode};
use records::images::{EndRecord, HeadRecord};

// The image of an account book with no lines, at its first point; `Worked` in specs/Cases.antt has what its bytes are.
pub struct BookCases {
    pub image_head: [u8; 16],
    pub image_end: [u8; 6],
}

pub fn book_cases() -> BookCases
    ensures { Worked result }
{
    BookCases {
        image_head: recorded::<HeadRecord, 16>(&head_of_empty()),
        image_end: recorded::<EndRecord, 6>(&0),
    }
}

// What the full image of an account book with no lines begins with, at its first point.
fn head_of_empty() -> Head
    ensures { result ≡ head_of account empty_book }
{
    Head {
        code: Account::type_code(),
        mode: Mode::Full,
        n: 0,
        from: 0,
        point: 1,
    }
}

// The record of a value that has N bytes. It asks that of its caller, which no public function does: so each crate of cases has its own.
fn recorded<R: Record, const N: usize>(value: &R::Value) -> [u8; N]
    requires { length (bytes_of R.layout value.now) ≡ N }
    ensures { result ≡ bytes_of R.layout value.now }
{
    let mut out = [0; N];
    let _ = write_record::<R>(&mut out, value);
    out
}
