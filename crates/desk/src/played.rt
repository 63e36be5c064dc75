// What the program needs of a kind of line besides its changes.
use crate::reading::{NOT_A_NUMBER, number_of};
use kinds::accounts::Account;
use kinds::stocks::StockLine;
use lines::traits::Line;
use std::fmt;
use words::decimal::signed_number;

pub(crate) trait Played: Line {
    // The line that two words write, or what is wrong with them.
    fn of_words(first: &[u8], second: &[u8]) -> Result<Self, &'static str>;

    fn numbers(&self) -> Numbers;
}

// A line's two numbers, in the order in which a script writes them.
#[derive(Clone, Copy)]
pub(crate) struct Numbers {
    first: i64,
    second: u32,
}

impl fmt::Display for Numbers {
    fn fmt<W: fmt::Write>(&self, f: &mut fmt::Formatter<W>) -> fmt::Result {
        write!(f, "{} {}", self.first, self.second)
    }
}

impl Played for Account {
    fn of_words(balance: &[u8], limit: &[u8]) -> Result<Account, &'static str> {
        Ok(Account {
            balance: signed_number(balance).ok_or(NOT_A_NUMBER)?,
            limit: number_of(limit)?,
        })
    }

    fn numbers(&self) -> Numbers {
        Numbers {
            first: self.balance,
            second: self.limit,
        }
    }
}

impl Played for StockLine {
    fn of_words(on_hand: &[u8], reserved: &[u8]) -> Result<StockLine, &'static str> {
        Ok(StockLine {
            on_hand: number_of(on_hand)?,
            reserved: number_of(reserved)?,
        })
    }

    fn numbers(&self) -> Numbers {
        Numbers {
            first: i64::from(self.on_hand),
            second: self.reserved,
        }
    }
}
