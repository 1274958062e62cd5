// What the literals of a clause say under the marks.
ghost use Rattle.std.specs.Prelude.{◌≡◌, length};
ghost use Rattle.proof_propagation.specs.Hint.{hint_of};
ghost use Rattle.proof_propagation.specs.Inner.Standing.{HasMarks};

use crate::Hint;
use crate::literals::Literals;
use crate::marks::{is_false, told};

// What literals say, each compared with the one found: one that comes again is the same one.
fn compare<L: Literals>(literals: L, marks: &[u8]) -> Hint
    requires readable { L.readable literals }
    requires has_marks { HasMarks (length marks.now) (L.left literals) }
    ensures { result ≡ hint_of marks.now (L.left literals) }
{
    let mut found: u32 = 0;
    let mut rest = literals;
    while let Some(l) = rest.next() {
        if !is_false(marks, l) {
            if found == 0 {
                found = l;
            } else if found != l {
                return Hint::Neither;
            }
        }
    }
    told(marks, found)
}

// The same. How many literals are not false, and the last of these, tell of a clause that has one or none. Which are false cannot be foretold, so nothing is left early,
// and the loop is compiled without a jump by them.
pub fn scan<L: Literals>(literals: L, marks: &[u8]) -> Hint
    requires readable { L.readable literals }
    requires has_marks { HasMarks (length marks.now) (L.left literals) }
    ensures { result ≡ hint_of marks.now (L.left literals) }
{
    let mut left: usize = 0;
    let mut found: u32 = 0;
    let mut rest = literals;
    while let Some(l) = rest.next() {
        if !is_false(marks, l) {
            left += 1;
            found = l;
        }
    }
    if left < 2 {
        return told(marks, found);
    }
    compare(literals, marks)
}
