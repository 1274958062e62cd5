// A proof in two slices, one after the other. Offsets go through both, and commands are read from the second.
ghost use Rattle.std.specs.Prelude.{◌≡◌, ◌++◌, ◌≤◌, length};
ghost use Rattle.proof_reader.specs.Command.{command_at};

use crate::{Command, read_command};

// The command at an offset in the second slice, or past its end.
pub fn next_command(closed: &[u8], proof: &[u8], at: usize) -> Command
    requires { length closed.now ≤ at }
    ensures { result ≡ command_at (closed.now ++ proof.now) at }
{
    read_command(proof, at - closed.len())
}
