// How answers are printed.
use lines::changes::Change;
use lines::faults::Refusal;
use logs::entries::Entry as LogEntry;
use records::heads::Mode;
use std::fmt;

// Prints what a line of a script is answered, behind its words.
#[derive(Clone, Copy)]
pub(crate) struct Reporter<'a> {
    pub(crate) rt: &'a HostRuntime,
    pub(crate) echo: &'a str,
}

impl<'a> Reporter<'a> {
    pub(crate) fn new(rt: &'a HostRuntime, echo: &'a str) -> Reporter<'a> {
        Reporter { rt, echo }
    }

    pub(crate) fn answer<T: fmt::Display + Drop>(self, answer: T) -> anyhow::Result<()> {
        println!(self.rt; "{}: {answer}", self.echo)?;
        Ok(())
    }

    pub(crate) fn refused<F: Into<Refusal>>(self, fault: F) -> anyhow::Result<()> {
        self.answer(Refused(fault.into()))
    }

    // One of the lines below an answer.
    pub(crate) fn below<T: fmt::Display + Drop>(self, said: T) -> anyhow::Result<()> {
        println!(self.rt; "  {said}")?;
        Ok(())
    }
}

#[derive(Clone, Copy)]
pub(crate) struct Refused(pub(crate) Refusal);

impl fmt::Display for Refused {
    fn fmt<W: fmt::Write>(&self, f: &mut fmt::Formatter<W>) -> fmt::Result {
        write!(f, "refused {}", self.0)
    }
}

// Bytes in lower-case hexadecimal.
#[derive(Clone, Copy)]
pub(crate) struct Hex<'a>(pub(crate) &'a [u8]);

impl fmt::Display for Hex<'_> {
    fn fmt<W: fmt::Write>(&self, f: &mut fmt::Formatter<W>) -> fmt::Result {
        for b in self.0 {
            write!(f, "{b:02x}")?;
        }
        Ok(())
    }
}

// A value of another crate in a script's words.
#[derive(Clone, Copy)]
pub(crate) struct InWords<T>(pub(crate) T);

impl fmt::Display for InWords<Change> {
    fn fmt<W: fmt::Write>(&self, f: &mut fmt::Formatter<W>) -> fmt::Result {
        let Change { line, kind, amount } = self.0;
        write!(f, "{line} {kind} {amount}")
    }
}

impl fmt::Display for InWords<LogEntry> {
    fn fmt<W: fmt::Write>(&self, f: &mut fmt::Formatter<W>) -> fmt::Result {
        match self.0 {
            LogEntry::Mark(point) => write!(f, "mark {point}"),
            LogEntry::Command(command) => {
                write!(f, "command")?;
                for change in command.as_slice() {
                    write!(f, " {}", InWords(*change))?;
                }
                Ok(())
            }
        }
    }
}

impl fmt::Display for InWords<Mode> {
    fn fmt<W: fmt::Write>(&self, f: &mut fmt::Formatter<W>) -> fmt::Result {
        f.write_str(match self.0 {
            Mode::Full => "full",
            Mode::Partial => "partial",
        })
    }
}
