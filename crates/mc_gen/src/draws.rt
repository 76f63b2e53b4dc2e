// The draws of a script: one number leads to the next, and the upper half of each is drawn.
ghost use Rattle.std.specs.Prelude.{◌≡◌};
ghost use Rattle.mc_gen.specs.Draws.{drawn, next_number};

// The factor and the increment of the linear congruential generator MMIX (D. Knuth).
const FACTOR: u64 = 6364136223846793005;

const INCREMENT: u64 = 1442695040888963407;

// Goes on to the next number, and draws.
pub fn draw(number: &mut u64) -> u64
    ensures number { number.new ≡ next_number number.old }
    ensures drawn { result ≡ drawn number.new }
{
    *number = number.wrapping_mul(FACTOR).wrapping_add(INCREMENT);
    *number >> 32
}
