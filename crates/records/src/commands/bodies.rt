// A command as the body of its record: seven bytes for each change.
ghost use Rattle.std.specs.Prelude.{◌≡◌, ◌≤◌, true, length, map};
ghost use Rattle.records.specs.Changes.{change_bytes, change_fits, change_in, changes_bytes, changes_fit};
ghost use Rattle.records.specs.Commands.{changes_of, command_in};

use super::Command;
use lines::changes::Change;

// Four changes of seven bytes.
const LONGEST: usize = 28;

fn change_bytes(change: Change) -> [u8; 7]
    ensures bytes { result ≡ change_bytes change }
    ensures fits { change_fits change ≡ true }
{
    let mut bytes = [0; 7];
    bytes[0..2].copy_from_slice(&change.line.to_le_bytes());
    bytes[2] = change.kind;
    bytes[3..7].copy_from_slice(&change.amount.to_le_bytes());
    bytes
}

fn change_in(bytes: &[u8; 7]) -> Change
    ensures { result ≡ change_in bytes.now }
{
    let [l, m, kind, a, b, c, d] = *bytes;
    Change {
        line: u16::from_le_bytes([l, m]),
        kind,
        amount: u32::from_le_bytes([a, b, c, d]),
    }
}

impl Command {
    // How many bytes the changes take.
    pub(crate) fn bytes_len(&self) -> usize
        ensures len { result ≡ length (changes_bytes (changes_of self.now)) }
        ensures short { result ≤ 28 }
        ensures fits { changes_fit (changes_of self.now) ≡ true }
    {
        let mut len = 0;
        for change in self.as_slice() {
            len += change_bytes(*change).len();
        }
        len
    }

    // The bytes of all four slots.
    pub(crate) fn slots(&self) -> [[u8; 7]; 4]
        ensures { result ≡ map change_bytes self.now.changes }
    {
        self.changes.map(change_bytes)
    }

    // The command whose body is `bytes`, all of them, if there is one.
    pub fn of_body(bytes: &[u8]) -> Option<Command>
        ensures { result ≡ command_in bytes.now }
    {
        let (slots, rest) = bytes.as_chunks::<7>();
        if bytes.len() > LONGEST || !rest.is_empty() {
            return None;
        }
        let mut command = Command::new();
        for slot in slots {
            // There are four at most.
            let _ = command.push(change_in(slot));
        }
        Some(command)
    }
}
