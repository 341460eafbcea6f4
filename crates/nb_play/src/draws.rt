ghost use Rattle.std.specs.Prelude.{◌≡◌, ◌<◌, ◌+◌, ◌^◌};
ghost use Rattle.nb_play.specs.Draws.{number, draw_of};

/// The generator goes from one number to the next by this factor, modulo 2^64 (D. E. Knuth, The Art of Computer Programming, volume 2,
/// section 3.3.4: MMIX).
pub(crate) const MULTIPLIER: u64 = 6_364_136_223_846_793_005;

/// And by this summand.
pub(crate) const INCREMENT: u64 = 1_442_695_040_888_963_407;

// A draw leaves so many low bits of a number out.
const LOW_BITS: u32 = 33;

/// Number `k` of the generator, from 0 on; the first one is the seed. It takes as many steps as `k` has bits: no clause says this.
pub fn number_at(seed: u64, k: u64) -> u64
    ensures { result ≡ number MULTIPLIER INCREMENT seed k }
{
    jump(MULTIPLIER, INCREMENT, seed, k)
}

/// Draw `k` of the generator, from 0 on and below 2^64 - 1: the 31 high bits of number `k + 1`.
pub fn draw(seed: u64, k: u64) -> u64
    requires { k + 1 < 2 ^ 64 }
    ensures draw { result ≡ draw_of seed k }
    ensures small { result < 2 ^ 31 }
{
    number_at(seed, k + 1) >> LOW_BITS
}

// So many steps from a number, by this factor and this summand: those of two steps have the square of the factor.
fn jump(multiplier: u64, increment: u64, from: u64, steps: u64) -> u64
    ensures { result ≡ number multiplier increment from steps }
{
    let mut factor = multiplier;
    let mut summand = increment;
    let mut at = from;
    let mut left = steps;
    'jumping: while left > 0 {
        if left % 2 == 1 {
            at = at.wrapping_mul(factor).wrapping_add(summand);
        }
        summand = summand.wrapping_mul(factor).wrapping_add(summand);
        factor = factor.wrapping_mul(factor);
        left /= 2;
    }
    at
}
