// A script once it is read.
use kinds::accounts::Account;
use kinds::stocks::StockLine;
use lines::changes::Change;

// What a line of a script says, with the words that it was written in, one space between them.
#[derive(Drop)]
pub(crate) struct Entry<T> {
    pub(crate) said: T,
    pub(crate) echo: String,
}

// A step of a script.
#[derive(Drop)]
pub(crate) enum Step {
    // A task with lines of a kind.
    Accounts(Task<Account>),
    Stock(Task<StockLine>),
    // Whether these bytes, up to a number of them, are a log.
    CheckLog(Vec<u8>, usize),
    // A short scene on a keeper by this method.
    Scene(Method),
}

// What is asked of lines of the kind L.
#[derive(Drop)]
pub(crate) enum Task<L> {
    Group(Group<L>),
    // What these bytes are as an image.
    Image(Vec<u8>),
    // Two images joined into so many bytes of memory.
    Join {
        earlier: Vec<u8>,
        later: Vec<u8>,
        room: usize,
    },
}

// An opening list, and the changes to be made on it.
#[derive(Drop)]
pub(crate) struct Group<L> {
    pub(crate) opening: Vec<L>,
    pub(crate) changes: Vec<Entry<Change>>,
}

// A method of keeping.
#[derive(Clone, Copy)]
pub(crate) enum Method {
    Calc,
    Zigzag,
    PingPong,
}
