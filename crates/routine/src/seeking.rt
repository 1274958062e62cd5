// Finding an access by its number, and the ifs before it: one flat walk over the commands in text order, whatever arms they stand in.
ghost use Rattle.std.specs.Prelude.{◌≡◌};
ghost use Rattle.routine.specs.Decode.{IsRoutine, commands_in};
ghost use Rattle.routine.specs.Access.{access_here, ifs_before};
ghost use Rattle.routine.specs.Inner.Seeks.{Seeks};

use crate::Access;
use routine_command::commands::{command_at, simple_size, touched};
use routine_command::{Command, Simple, Touch};
use routine_faults::Counts;
use routine_faults::steps::{accesses_of, counts_after, counts_after_if, no_counts};
use routine_header::{Header, first_command};

// The command after the counts k, if it is the access of this number.
#[tactic(auto, unfolding(crate::specs::Access::access_here))]
fn access_here(c: Simple, k: Counts, access: u8) -> Option<Access>
    ensures { result ≡ access_here c k access }
{
    if accesses_of(k) != u32::from(access) {
        return None;
    }
    match touched(c) {
        Touch::Nothing => None,
        Touch::Reads { d: _, array, i } | Touch::Writes { array, i } => Some(Access {
            counts: k,
            array,
            i,
        }),
    }
}

// The access of this number in an accepted routine. No index is counted: a command's size tells where the next one stands.
pub fn access_at(bytes: &[u8], h: Header, access: u8) -> Option<Access>
    requires { IsRoutine bytes.now h }
    ensures { Seeks bytes.now h access result }
{
    let mut at = first_command(h);
    let mut k = no_counts();
    while at < bytes.len() {
        match command_at(bytes, at) {
            Command::Missing => return None,
            Command::Close(_) => {
                at += 1;
            }
            Command::If(_) => {
                at += 4;
                k = counts_after_if(k);
            }
            Command::Simple(c) => match access_here(c, k, access) {
                Some(found) => return Some(found),
                None => {
                    at += simple_size(c);
                    k = counts_after(c, k);
                }
            },
        }
    }
    None
}

// How many ifs stand before the access of this number in an accepted routine.
pub fn ifs_before(bytes: &[u8], h: Header, access: u8) -> u8
    requires { IsRoutine bytes.now h }
    ensures { result ≡ ifs_before (commands_in bytes.now) access }
{
    match access_at(bytes, h, access) {
        None => 0,
        Some(found) => found.counts.ifs,
    }
}
