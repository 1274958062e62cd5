// A proof in a report, read command by command.
#![tactic(auto)]

mod commands;
pub mod joined;

ghost use Rattle.std.specs.Prelude.{◌≡◌};
ghost use Rattle.proof_reader.specs.Command.{command_at};

use commands::command_at;

// A command of a proof.
#[derive(Clone, Copy)]
pub enum Command {
    // of the step's clause
    Literal(u32),
    // the number of a clause
    Hint(u32),
    Close,
    End,
    // unknown, cut short, or missing
    Unreadable,
}

// A report, and the offset of the command that is read next.
#[derive(Clone, Copy)]
pub struct Reader<'a> {
    pub report: &'a [u8],
    pub at: usize,
}

impl<'a> Reader<'a> {
    // Stands at an offset of a report.
    pub fn new(report: &'a [u8], at: usize) -> Reader<'a>
        ensures { (result.report ≡ report.entry) × (result.at ≡ at) }
    {
        Reader { report, at }
    }

    // The command where the reader stands.
    pub fn command(self) -> Command
        ensures { result ≡ command_at self.entry.report.now self.entry.at }
    {
        command_at(self.report, self.at)
    }
}

// The command at an offset: what every caller uses, whose proof then needs no walk of its own.
pub fn read_command(report: &[u8], at: usize) -> Command
    ensures { result ≡ command_at report.now at }
{
    Reader::new(report, at).command()
}
