// The state of a run. Each method takes it by value and hands the next one back.
ghost use Rattle.std.specs.Prelude.{◌≡◌, ◌<◌, ◌≤◌};
ghost use Rattle.run_state.specs.State.{initial, with_arm, stop, lies};

use crate::{Side, State, Stop};
use bitvec::Whole;
use slices::entry_at;

// The side on which an index lies outside an array of this size, as whole numbers.
#[tactic(auto, unfolding(crate::specs::State::lies))]
pub fn lies_at(size: u32, index: Whole) -> Option<Side>
    ensures { result ≡ lies size index }
{
    match index {
        Whole::Negative(_) => Some(Side::Below),
        Whole::Natural(n) => { if size <= n { Some(Side::Above) } else { None } }
    }
}

impl State {
    // The beginning: each of the n variables has its input word.
    #[tactic(auto, using(crate::proofs::Laid::laid_none, crate::proofs::Laid::laid_next, crate::proofs::Laid::laid_all), unfolding(crate::specs::State::initial))]
    pub fn initial(inputs: &[u32], n: u8) -> State
        requires { n ≤ 32 }
        ensures { result ≡ initial inputs.now n }
    {
        let mut values = [0u32; 32];
        for i in 0..usize::from(n) {
            values[i] = entry_at(inputs, i);
        }
        State {
            values,
            trail: [2u8; 32],
            stop: None,
        }
    }

    // The state after an arm was taken at an if. The arm is its number: the trail is handed out byte by byte.
    pub fn with_arm(mut self, number: u8, arm: u8) -> State
        requires { number < 32 }
        ensures { result ≡ with_arm self number arm }
    {
        let i = usize::from(number);
        self.trail[i] = arm;
        self
    }

    // The state that an access stopped.
    pub fn stopped(mut self, access: u32, index: Whole, side: Side) -> State
        ensures { result ≡ stop self access index side }
    {
        self.stop = Some(Stop {
            access,
            index,
            side,
        });
        self
    }
}
