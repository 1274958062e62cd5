// The words of an input list: how many there are, and which is whose.
ghost use Rattle.std.specs.Prelude.{◌≡◌};
ghost use Rattle.routine_faults.specs.Inputs.{given, input_number, input_count};

use crate::Counts;
use routine_header::Header;

// How many variables begin with an input word: all of them, parameters and leftovers.
pub fn given_of(h: Header) -> u8
    ensures { result ≡ given h }
{
    h.variables
}

// The number of the input word of a read, the counts before it being k.
pub fn input_number(h: Header, k: Counts) -> usize
    ensures { result ≡ input_number h k }
{
    given_of(h) as usize + k.reads as usize
}

// How many words an input list has. A definition of its own, which promises cite, though the number is that of the next read.
pub fn input_count(h: Header, k: Counts) -> usize
    ensures { result ≡ input_count h k }
{
    input_number(h, k)
}
