// The models: all of one and two states, every fifth of three, 432 pseudo-random ones of four.
ghost use Rattle.std.specs.Prelude.{◌<◌, ◌≤◌};

// The numbers at which the models of two, three and four states begin, and the end.
const TWO: u64 = 8;

const THREE: u64 = 264;

const FOUR: u64 = 5180;

pub const END: u64 = 5612;

// How many states the model with a number has.
pub fn states_at(number: u64) -> usize
    ensures { (0 < result) × (result ≤ 4) }
{
    if number < TWO {
        return 1;
    }
    if number < THREE {
        return 2;
    }
    if number < FOUR {
        return 3;
    }
    4
}

// The number that the model with a number has among those of its states. Of those with three states every fifth is taken:
// each edge set nine or ten times, with all initial states and various marks, and with 0 and 1 in bytes 6–7.
pub fn among_its_states(number: u64) -> u64
    requires { number < 5612 }
{
    if number < TWO {
        return number;
    }
    if number < THREE {
        return number - TWO;
    }
    if number < FOUR {
        return 5 * (number - THREE);
    }
    number - FOUR
}
