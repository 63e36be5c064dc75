// A short scene on a keeper alone: two seats, an abandoned change, a point, and lines given out while a change goes on.
use crate::played::{Numbers, Played};
use crate::printing::{InWords, Refused, Reporter};
use crate::script::Method;
use calc::backed::Backed;
use keepers::faults::KeeperFault;
use keepers::given::Given;
use keepers::rules::Rules;
use keepers::traits::Keeper;
use kinds::accounts::Account;
use lines::changes::Change;
use ping_pong::shadowed::Shadowed;
use std::fmt;
use store::stores::Store;
use zigzag::twins::Twin;

// A call of the scene.
#[derive(Clone, Copy)]
enum Call {
    Begin(u8),
    Change(u8, Change),
    Commit(u8),
    Abandon(u8),
    Look(u16),
    Call,
    Turn,
    Give,
}

impl fmt::Display for Call {
    fn fmt<W: fmt::Write>(&self, f: &mut fmt::Formatter<W>) -> fmt::Result {
        match *self {
            Call::Begin(seat) => write!(f, "begin {seat}"),
            Call::Change(seat, change) => write!(f, "change {seat} {}", InWords(change)),
            Call::Commit(seat) => write!(f, "commit {seat}"),
            Call::Abandon(seat) => write!(f, "abandon {seat}"),
            Call::Look(line) => write!(f, "look {line}"),
            Call::Call => write!(f, "call"),
            Call::Turn => write!(f, "turn"),
            Call::Give => write!(f, "give"),
        }
    }
}

fn change(seat: u8, line: u16, kind: u8, amount: u32) -> Call {
    Call::Change(seat, Change { line, kind, amount })
}

// Seat 0 takes 100 off account 0 and commits. Seat 1 may not touch that account meanwhile; it abandons a change of another.
fn before_the_point() -> [Call; 12] {
    [
        Call::Begin(0),
        change(0, 0, 2, 100),
        Call::Begin(1),
        change(1, 0, 1, 5),
        change(1, 1, 1, 50),
        Call::Look(1),
        Call::Abandon(1),
        Call::Commit(0),
        Call::Look(0),
        Call::Call,
        Call::Begin(3),
        Call::Abandon(3),
    ]
}

// Seat 2 takes 300 off account 0 while the lines of the point are given out.
fn behind_the_point() -> [Call; 14] {
    [
        Call::Turn,
        Call::Begin(2),
        change(2, 0, 2, 300),
        Call::Turn,
        Call::Give,
        Call::Commit(2),
        Call::Turn,
        Call::Give,
        Call::Give,
        Call::Give,
        Call::Look(0),
        Call::Turn,
        Call::Turn,
        Call::Turn,
    ]
}

fn opening() -> [Account; 3] {
    [
        Account {
            balance: 500,
            limit: 100,
        },
        Account {
            balance: 0,
            limit: 100,
        },
        Account {
            balance: -100,
            limit: 100,
        },
    ]
}

// The scene needs no more cells than it has lines.
const CELLS: usize = 3;

impl<'a> Reporter<'a> {
    pub(crate) fn play_scene(self, method: Method) -> anyhow::Result<()> {
        match method {
            Method::Calc => self.play_by::<Backed<Account>>(),
            Method::Zigzag => self.play_by::<Twin<Account>>(),
            Method::PingPong => self.play_by::<Shadowed<Account>>(),
        }
    }

    // The scene on a keeper whose cells have these rules.
    fn play_by<R: Rules<Line = Account>>(self) -> anyhow::Result<()> {
        let nobody = Account {
            balance: 0,
            limit: 0,
        };
        let mut cells = vec![in self.rt.alloc(); Store::<R>::blank(nobody); CELLS]?;
        let mut keeper = Store::<R>::open(&opening(), cells.as_mut_slice());
        let count = keeper.count();
        self.answer(format_args!("{count} lines"))?;
        self.play_calls(&mut keeper, &before_the_point())?;
        self.play_calls(&mut keeper, &behind_the_point())
    }

    fn play_calls<'k, K: Keeper<'k, Line = Account>>(
        self,
        keeper: &mut K,
        calls: &[Call],
    ) -> anyhow::Result<()> {
        for call in calls {
            match answer_of(keeper, *call) {
                Ok(answer) => self.below(format_args!("{call}: {answer}"))?,
                Err(fault) => {
                    self.below(format_args!("{call}: {}", Refused(fault.into())))?;
                }
            }
        }
        Ok(())
    }
}

// What an accepted call of the scene answers.
#[derive(Clone, Copy)]
enum Answer {
    Done,
    Line(Numbers),
    // A line, and whether it was named.
    Given(Numbers, bool),
    Nothing,
}

impl fmt::Display for Answer {
    fn fmt<W: fmt::Write>(&self, f: &mut fmt::Formatter<W>) -> fmt::Result {
        match *self {
            Answer::Done => write!(f, "ok"),
            Answer::Line(numbers) | Answer::Given(numbers, false) => write!(f, "{numbers}"),
            Answer::Given(numbers, true) => write!(f, "{numbers} named"),
            Answer::Nothing => write!(f, "none"),
        }
    }
}

fn answer_of<'a, K: Keeper<'a, Line = Account>>(
    keeper: &mut K,
    call: Call,
) -> Result<Answer, KeeperFault> {
    match call {
        Call::Begin(seat) => keeper.begin(seat)?,
        Call::Change(seat, change) => keeper.change(seat, change)?,
        Call::Commit(seat) => keeper.commit(seat)?,
        Call::Abandon(seat) => keeper.abandon(seat)?,
        Call::Call => keeper.call()?,
        Call::Turn => keeper.turn()?,
        Call::Look(line) => return Ok(Answer::Line(keeper.look(line)?.numbers())),
        Call::Give => {
            return Ok(match keeper.give() {
                Some(Given { line, named }) => Answer::Given(line.numbers(), named),
                None => Answer::Nothing,
            });
        }
    }
    Ok(Answer::Done)
}
