// Worked cases, as one proved table.
#![tactic(auto)]

ghost use Rattle.std.specs.Prelude.{◌≡◌, [], ◌∷◌, length};
ghost use Rattle.kinds.specs.Accounts.{payload};
ghost use Rattle.cases.specs.Cases.{Worked};
ghost use Rattle.records.specs.Commands.{command_of};
ghost use Rattle.records.specs.Framing.{bytes_of};
ghost use Rattle.lines.specs.Numbered.{change};

use kinds::accounts::Account;
use kinds::stocks::StockLine;
use lines::changes::Change;
use lines::faults::LineFault;
use lines::traits::{Coded, Line};
use records::commands::Command;
use records::entries::{CommandRecord, MarkRecord};
use records::frames::{Record, write_record};

// What the calls answer in each case; `Worked` in specs/Cases.antt has the cases and what each answer is.
pub struct WorkedCases {
    pub debit: Result<Account, LineFault>,
    pub debit_past: Result<Account, LineFault>,
    pub at_ceiling: Result<Account, LineFault>,
    pub past_ceiling: Result<Account, LineFault>,
    pub reserve: Result<StockLine, LineFault>,
    pub reserve_past: Result<StockLine, LineFault>,
    pub ship: Result<StockLine, LineFault>,
    pub ship_past: Result<StockLine, LineFault>,
    pub payload: [u8; 12],
    pub command: [u8; 11],
    pub mark: [u8; 8],
}

pub fn worked_cases() -> WorkedCases
    ensures { Worked result }
{
    let builder = Account {
        balance: 0,
        limit: 100,
    };
    let full = Account {
        balance: 1_000_000_000_000,
        limit: 0,
    };
    let bricks = StockLine {
        on_hand: 10,
        reserved: 4,
    };
    WorkedCases {
        debit: answer(builder, 2, 100),
        debit_past: answer(builder, 2, 101),
        at_ceiling: answer(full, 1, 0),
        past_ceiling: answer(full, 1, 1),
        reserve: answer(bricks, 2, 6),
        reserve_past: answer(bricks, 2, 7),
        ship: answer(bricks, 4, 4),
        ship_past: answer(bricks, 4, 5),
        payload: payload_of(Account {
            balance: -100,
            limit: 100,
        }),
        command: recorded::<CommandRecord, 11>(&command_of_one(0, 1, 500)),
        mark: recorded::<MarkRecord, 8>(&1),
    }
}

// What a line answers as line 0.
fn answer<L: Line>(line: L, kind: u8, amount: u32) -> Result<L, LineFault>
    ensures { result ≡ change L.changed line (record { line = 0; kind = kind; amount = amount }) }
{
    line.change(Change {
        line: 0,
        kind,
        amount,
    })
}

fn payload_of(account: Account) -> [u8; 12]
    ensures { result ≡ payload account }
{
    let mut out = [0; 12];
    let _ = account.write_payload(&mut out);
    out
}

fn command_of_one(line: u16, kind: u8, amount: u32) -> Command
    ensures { result ≡ command_of (record { line = line; kind = kind; amount = amount } ∷ []) }
{
    let mut command = Command::new();
    let _ = command.push(Change { line, kind, amount });
    command
}

// The record of a value that has N bytes. It asks that of its caller, which no public function does: so each crate of cases has its own.
fn recorded<R: Record, const N: usize>(value: &R::Value) -> [u8; N]
    requires { length (bytes_of R.layout value.now) ≡ N }
    ensures { result ≡ bytes_of R.layout value.now }
{
    let mut out = [0; N];
    let _ = write_record::<R>(&mut out, value);
    out
}
