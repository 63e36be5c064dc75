// How a script is read: its lines into steps, or what is wrong in the first line that is none. What a function here allocates with is its first parameter.
use crate::played::Played;
use crate::script::{Entry, Group, Method, Step, Task};
use anyhow::anyhow;
use lines::changes::Change;
use std::alloc::{AllocError, AllocFailed, Global};
use std::str::from_utf8;
use words::decimal::number;
use words::hex::read_hex;
use words::pieces::Pieces;

// Why a line of a script cannot be read.
#[derive(Drop)]
enum Unread {
    Because(&'static str),
    NoMemory(AllocError),
}

impl From<&'static str> for Unread {
    fn from(what: &'static str) -> Unread {
        Unread::Because(what)
    }
}

impl From<AllocError> for Unread {
    fn from(error: AllocError) -> Unread {
        Unread::NoMemory(error)
    }
}

impl<T: Drop> From<AllocFailed<T>> for Unread {
    fn from(error: AllocFailed<T>) -> Unread {
        Unread::NoMemory(error.into())
    }
}

impl Unread {
    // What is told of line i, counted from 0.
    fn at(self, i: usize) -> anyhow::Error {
        let line = i.saturating_add(1);
        match self {
            Unread::Because(what) => anyhow!("line {line}: {what}"),
            Unread::NoMemory(error) => error.into(),
        }
    }
}

// All of a script, or the first line of it that cannot be read.
pub(crate) fn read_script(heap: Global, text: &[u8]) -> anyhow::Result<Vec<Entry<Step>>> {
    let mut entries = Vec::new(heap);
    let mut count = 0;
    for (i, line) in Pieces::new(text, b'\n').enumerate() {
        read_line(heap, line, &mut entries).map_err(|unread| unread.at(i))?;
        count = i.saturating_add(1);
    }
    if entries.is_empty() {
        return Err(Unread::Because("no heading").at(count));
    }
    Ok(entries)
}

// Reads a line behind the entries so far. One that is passed over is not cut into words: a long comment takes no memory.
fn read_line(heap: Global, line: &[u8], entries: &mut Vec<Entry<Step>>) -> Result<(), Unread> {
    if is_passed_over(line) {
        return Ok(());
    }
    let words: Vec<&[u8]> = Pieces::new(line, b' ')
        .filter(|word| !word.is_empty())
        .collect(heap)?;
    read_words(heap, words.as_slice(), entries)
}

// Whether a line has no word, or its first begins with `#`.
fn is_passed_over(line: &[u8]) -> bool {
    matches!(line.iter().find(|b| **b != b' '), None | Some(b'#'))
}

// A step of its own, or one more line of the last step's group.
fn read_words(heap: Global, words: &[&[u8]], entries: &mut Vec<Entry<Step>>) -> Result<(), Unread> {
    if let [b"line" | b"change", ..] = words {
        return match entries.last_mut() {
            Some(last) => read_in_group(heap, words, &mut last.said),
            None => Err("no heading".into()),
        };
    }
    let entry = Entry {
        said: read_step(heap, words)?,
        echo: joined(heap, words)?,
    };
    entries.push(entry)?;
    Ok(())
}

// The arms differ in the type of the group, as the two of `read_task` do.
fn read_in_group(heap: Global, words: &[&[u8]], step: &mut Step) -> Result<(), Unread> {
    match step {
        Step::Accounts(Task::Group(group)) => group.read(heap, words),
        Step::Stock(Task::Group(group)) => group.read(heap, words),
        _ => Err("no heading".into()),
    }
}

impl<L: Played> Group<L> {
    fn read(&mut self, heap: Global, words: &[&[u8]]) -> Result<(), Unread> {
        match words {
            [b"line", ..] if !self.changes.is_empty() => Err("a line after a change".into()),
            [b"line", first, second] => {
                self.opening.push(L::of_words(first, second)?)?;
                Ok(())
            }
            [b"line", ..] => Err("`line` takes two numbers".into()),
            [_, line, kind, amount] => {
                let change = Change {
                    line: number_of(line)?,
                    kind: number_of(kind)?,
                    amount: number_of(amount)?,
                };
                let echo = joined(heap, words)?;
                self.changes.push(Entry { said: change, echo })?;
                Ok(())
            }
            _ => Err("`change` takes three numbers".into()),
        }
    }
}

// Words that were read, with one space between them; they are digits, hexadecimal and known words, and so text.
fn joined(heap: Global, words: &[&[u8]]) -> Result<String, Unread> {
    let mut text = String::new(heap);
    for word in words {
        if !text.is_empty() {
            text.push(' ')?;
        }
        text.push_str(from_utf8(word).map_err(|_| "unknown word")?)?;
    }
    Ok(text)
}

fn read_step(heap: Global, words: &[&[u8]]) -> Result<Step, Unread> {
    match words {
        [b"lines", kind] => read_task(heap, kind, Asked::Group),
        [b"lines", ..] => Err("`lines` takes a kind".into()),
        [b"image", kind, bytes] => read_task(heap, kind, Asked::Image(bytes)),
        [b"image", ..] => Err("`image` takes a kind and bytes".into()),
        [b"join", kind, earlier, later, room] => {
            read_task(heap, kind, Asked::Join(earlier, later, room))
        }
        [b"join", ..] => Err("`join` takes a kind, bytes, bytes and a number".into()),
        [b"check-log", bytes, used] => {
            let bytes = bytes_of(heap, bytes)?;
            Ok(Step::CheckLog(bytes, number_of(used)?))
        }
        [b"check-log", ..] => Err("`check-log` takes bytes and a number".into()),
        [b"scene", method] => Ok(Step::Scene(Method::try_from(*method)?)),
        [b"scene", ..] => Err("`scene` takes a method".into()),
        _ => Err("unknown word".into()),
    }
}

// The words of a task behind its kind.
#[derive(Clone, Copy)]
enum Asked<'a> {
    Group,
    Image(&'a [u8]),
    Join(&'a [u8], &'a [u8], &'a [u8]),
}

fn read_task(heap: Global, kind: &[u8], asked: Asked) -> Result<Step, Unread> {
    match kind {
        b"account" => Ok(Step::Accounts(task_of(heap, asked)?)),
        b"stock" => Ok(Step::Stock(task_of(heap, asked)?)),
        _ => Err("unknown kind".into()),
    }
}

// The most memory that a script can ask for.
const MOST_ROOM: usize = 131_072;

fn task_of<L: Played>(heap: Global, asked: Asked) -> Result<Task<L>, Unread> {
    match asked {
        Asked::Group => Ok(Task::Group(Group {
            opening: Vec::new(heap),
            changes: Vec::new(heap),
        })),
        Asked::Image(bytes) => Ok(Task::Image(bytes_of(heap, bytes)?)),
        Asked::Join(earlier, later, room) => {
            let earlier = bytes_of(heap, earlier)?;
            let later = bytes_of(heap, later)?;
            let room = number_of(room)?;
            if room > MOST_ROOM {
                return Err(NOT_A_NUMBER.into());
            }
            Ok(Task::Join {
                earlier,
                later,
                room,
            })
        }
    }
}

impl TryFrom<&[u8]> for Method {
    type Error = &'static str;

    fn try_from(word: &[u8]) -> Result<Method, &'static str> {
        match word {
            b"calc" => Ok(Method::Calc),
            b"zigzag" => Ok(Method::Zigzag),
            b"ping-pong" => Ok(Method::PingPong),
            _ => Err("unknown method"),
        }
    }
}

fn bytes_of(heap: Global, word: &[u8]) -> Result<Vec<u8>, Unread> {
    match read_hex(heap, word)? {
        Some(bytes) => Ok(bytes),
        None => Err("not bytes in hexadecimal".into()),
    }
}

pub(crate) const NOT_A_NUMBER: &str = "not a number that fits";

// The number that a word writes, if it fits T.
pub(crate) fn number_of<T: TryFrom<u64> + Drop>(word: &[u8]) -> Result<T, &'static str>
where
    T::Error: Drop,
{
    let n = number(word).ok_or(NOT_A_NUMBER)?;
    T::try_from(n).ok().ok_or(NOT_A_NUMBER)
}
