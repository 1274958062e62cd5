// Marks, one byte for each variable: 0 undecided, 1 true, 2 false.
ghost use Rattle.std.specs.Prelude.{◌≡◌, [], ◌/◌, ◌<◌, length};
ghost use Rattle.proof_propagation.specs.Marks.{is_false, true_mark, false_mark};
ghost use Rattle.proof_propagation.specs.Inner.Scan.{scan_of, FoundFits};

use crate::Hint;

// Whether the marks make a literal false.
pub fn is_false(marks: &[u8], literal: u32) -> bool
    requires { literal / 2 < length marks.now }
    ensures { result ≡ is_false marks.now literal }
{
    let v = (literal / 2) as usize;
    u32::from(marks[v]) == 2 - literal % 2
}

// The mark that makes a literal true.
pub fn true_mark(literal: u32) -> u8
    ensures { result ≡ true_mark literal }
{
    (1 + literal % 2) as u8
}

// The mark that makes a literal false.
pub fn false_mark(literal: u32) -> u8
    ensures { result ≡ false_mark literal }
{
    (2 - literal % 2) as u8
}

// What a clause says of which one distinct literal at most, the one found, is not false. No literal is 0, so 0 stands for none.
pub fn told(marks: &[u8], found: u32) -> Hint
    requires { FoundFits marks.now found }
    ensures { result ≡ scan_of marks.now found [] }
{
    if found == 0 {
        return Hint::Conflict;
    }
    let v = (found / 2) as usize;
    if marks[v] == 0 {
        Hint::Unit(found)
    } else {
        Hint::Neither
    }
}
