// The records of a log: commands and marks.
ghost use Rattle.std.specs.Prelude.{true};
ghost use Rattle.records.specs.Commands.{command_record};
ghost use Rattle.records.specs.Numbers.{mark_record};

use crate::commands::Command;
use crate::frames::{Kind, Record};
use lines::numbers::{Number, write_front};

pub struct CommandRecord;

impl Record for CommandRecord {
    type Value = Command;

    ghost layout = { command_record };

    ghost allowed = { λ _. true };

    fn kind() -> Kind {
        Kind::Command
    }

    fn body_len(command: &Command) -> usize {
        command.bytes_len()
    }

    fn write_body(command: &Command, out: &mut [u8]) -> Option<usize> {
        let slots = command.slots();
        write_front(&slots.as_flattened()[0..7 * command.len()], out)
    }

    fn read_body(bytes: &[u8]) -> Option<Command> {
        Command::of_body(bytes)
    }
}

// A mark; its value is the point.
pub struct MarkRecord;

impl Record for MarkRecord {
    type Value = u32;

    ghost layout = { mark_record };

    ghost allowed = { λ _. true };

    fn kind() -> Kind {
        Kind::Mark
    }

    fn body_len(point: &u32) -> usize {
        point.to_le_bytes().len()
    }

    fn write_body(point: &u32, out: &mut [u8]) -> Option<usize> {
        point.write(out)
    }

    fn read_body(bytes: &[u8]) -> Option<u32> {
        u32::read(bytes)
    }
}
