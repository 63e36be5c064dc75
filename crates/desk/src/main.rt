// Plays a script of lines and changes: prints what each change answered, and the lines at the end. Reports on logs and images too.
#![tactic(auto)]

mod played;
mod printing;
mod reading;
mod reports;
mod scene;
mod script;

use anyhow::anyhow;
use lines::numbered::{change_line, lawful_front};
use played::Played;
use printing::{Hex, Reporter};
use reading::read_script;
use script::{Entry, Group, Step, Task};
use std::io::Read;
use std::process::ExitCode;
use std::{env, fmt, fs};

// What went wrong is one line on standard error; returned from here, it would be printed a second time.
fn main(rt: HostRuntime) -> ExitCode {
    match run(&rt) {
        Ok(()) => ExitCode::SUCCESS,
        Err(error) => {
            let _ = eprintln!(rt; "{error}");
            ExitCode::FAILURE
        }
    }
}

fn run(rt: &HostRuntime) -> anyhow::Result<()> {
    let text = script_text(rt)?;
    let entries = read_script(rt.alloc(), text.as_slice())?;
    play_script(rt, entries.as_slice())
}

// The file that the one argument names, or standard input where there is none.
fn script_text(rt: &HostRuntime) -> anyhow::Result<Vec<u8>> {
    let mut args = env::args(rt)?;
    let _program = args.next();
    let Some(path) = args.next() else {
        let mut text = Vec::new(rt.alloc());
        rt.stdin().read_to_end(&mut text)?;
        return Ok(text);
    };
    if args.next().is_some() {
        return Err(anyhow!("desk takes one script"));
    }
    Ok(fs::read(rt, path.as_str())?)
}

// How many changes were played, and how many of them were refused.
#[derive(Clone, Copy, Default)]
struct Tally {
    changes: u64,
    refused: u64,
}

impl fmt::Display for Tally {
    fn fmt<W: fmt::Write>(&self, f: &mut fmt::Formatter<W>) -> fmt::Result {
        let Tally { changes, refused } = *self;
        let accepted = changes.saturating_sub(refused);
        write!(
            f,
            "{changes} changes, {accepted} accepted, {refused} refused"
        )
    }
}

fn play_script(rt: &HostRuntime, entries: &[Entry<Step>]) -> anyhow::Result<()> {
    let mut tally = Tally::default();
    for entry in entries {
        let reporter = Reporter::new(rt, entry.echo.as_str());
        match &entry.said {
            Step::Accounts(task) => reporter.play(task, &mut tally)?,
            Step::Stock(task) => reporter.play(task, &mut tally)?,
            Step::CheckLog(bytes, used) => reporter.report_log(bytes.as_slice(), *used)?,
            Step::Scene(method) => reporter.play_scene(*method)?,
        }
    }
    println!(rt; "{tally}")?;
    Ok(())
}

impl<'a> Reporter<'a> {
    fn play<L: Played>(self, task: &Task<L>, tally: &mut Tally) -> anyhow::Result<()> {
        match task {
            Task::Group(group) => self.play_group(group, tally),
            Task::Image(bytes) => self.report_image::<L>(bytes.as_slice()),
            Task::Join {
                earlier,
                later,
                room,
            } => self.report_join::<L>(earlier.as_slice(), later.as_slice(), *room),
        }
    }

    fn play_group<L: Played>(self, group: &Group<L>, tally: &mut Tally) -> anyhow::Result<()> {
        let count = lawful_front(group.opening.as_slice());
        let mut lines: Vec<L> = group
            .opening
            .iter()
            .copied()
            .take(count)
            .collect(self.rt.alloc())?;
        self.answer(format_args!("{count} lines"))?;
        for change in &group.changes {
            let reporter = Reporter::new(self.rt, change.echo.as_str());
            tally.changes = tally.changes.saturating_add(1);
            match change_line(lines.as_mut_slice(), change.said) {
                Ok(()) => reporter.answer("ok")?,
                Err(fault) => {
                    tally.refused = tally.refused.saturating_add(1);
                    reporter.refused(fault)?;
                }
            }
        }
        for (i, line) in lines.iter().enumerate() {
            self.show_line(i, line)?;
        }
        Ok(())
    }

    // A line's number, its two numbers and its payload, which a kind of line writes into lent memory.
    fn show_line<L: Played>(self, number: usize, line: &L) -> anyhow::Result<()> {
        let mut payload = [0u8; 26];
        let width = line.write_payload(&mut payload).unwrap_or(0);
        let payload = Hex(payload.get(..width).unwrap_or(&[]));
        self.below(format_args!("{number} {} {payload}", line.numbers()))
    }
}
