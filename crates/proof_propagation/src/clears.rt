// The undoing of marks: the variables of some literals are undecided again. It costs what is named, and not what there is.
ghost use Rattle.std.specs.Prelude.{◌≡◌, ◌/◌, set};
ghost use Rattle.proof_propagation.specs.Inner.Clear.{clear};

use crate::literals::Literals;

// One literal; one of no variable changes nothing.
pub fn clear_literal(marks: &mut [u8], literal: u32)
    ensures { marks.new ≡ set marks.old (literal / 2) 0 }
{
    let v = (literal / 2) as usize;
    if v < marks.len() {
        marks[v] = 0;
    }
}

// Those that are read from the first on.
pub fn clear_literals<L: Literals>(literals: L, marks: &mut [u8])
    requires { L.readable literals }
    ensures { marks.new ≡ clear marks.old (L.left literals) }
{
    let mut rest = literals;
    while let Some(l) = rest.next() {
        clear_literal(marks, l);
    }
}
