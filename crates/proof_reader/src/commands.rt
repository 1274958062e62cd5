// The command at an offset of a report, read from the plain slice, by its byte.
ghost use Rattle.std.specs.Prelude.{◌≡◌};
ghost use Rattle.proof_reader.specs.Command.{command_at};

use crate::Command;
use slices::{byte_at, whole_word_at};

pub fn command_at(report: &[u8], at: usize) -> Command
    ensures { result ≡ command_at report.now at }
{
    if report.len() <= at {
        return Command::Unreadable;
    }
    let kind = byte_at(report, at);
    if kind == 0 {
        return Command::End;
    }
    if kind == 3 {
        return Command::Close;
    }
    if report.len() - at < 5 {
        return Command::Unreadable;
    }
    match kind {
        1 => Command::Literal(whole_word_at(report, at + 1)),
        2 => Command::Hint(whole_word_at(report, at + 1)),
        _ => Command::Unreadable,
    }
}
