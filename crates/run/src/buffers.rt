// Handing values and trail out into the lent buffers.
ghost use Rattle.std.specs.Prelude.{◌≡◌, ◌≤◌, ◌++◌, length, take, drop};

// The first n entries go into the lent buffer.
pub fn hand_out<T: Copy>(from: &[T], n: u8, to: &mut [T])
    requires { (n ≤ length from.now) × (n ≤ length to.old) }
    ensures { to.new ≡ take n from.now ++ drop n to.old }
{
    let count = usize::from(n);
    to[..count].copy_from_slice(&from[..count]);
}
