//! The maps by which states go on, composed.

ghost use Rattle.std.specs.Prelude.{◌≡◌, ℕ, ◌<◌, ◌^◌, ◌%◌, ◌==◌, if◌then◌else◌};
ghost use Rattle.schedules.specs.Draws.{next_draw_state, state_after};
ghost use Rattle.schedules.specs.AffineMaps.{map_value_at};

/// The map from x to factor * x + term, in 64 bits.
#[derive(Clone, Copy)]
pub(crate) struct Affine {
    factor: u64,
    term: u64,
}

/// What leaves a state as it is.
const SAME: Affine = Affine { factor: 1, term: 0 };

impl Affine {
    /// The map's value.
    #[tactic(auto, using(crate::proofs::states::AffineLaws::added), unfolding(crate::specs::AffineMaps::map_value_at))]
    fn at(self, x: u64) -> u64
        ensures { result ≡ map_value_at self x }
    {
        self.factor.wrapping_mul(x).wrapping_add(self.term)
    }

    /// The map that does another one first.
    fn after(self, first: Affine) -> Affine
        ensures { (x : ℕ) → map_value_at result x ≡ map_value_at self (map_value_at first x) }
    {
        Affine {
            factor: self.factor.wrapping_mul(first.factor),
            term: self.at(first.term),
        }
    }

    /// The map with another one after it where a number is odd.
    fn if_odd(self, next: Affine, number: u64) -> Affine
        ensures { (x : ℕ) → map_value_at result x ≡ (if number % 2 == 1 then map_value_at next (map_value_at self x) else map_value_at self x) }
    {
        if number % 2 == 1 {
            next.after(self)
        } else {
            self
        }
    }
}

/// The map that makes the next state of one.
#[tactic(auto, unfolding(crate::specs::AffineMaps::map_value_at, crate::specs::Draws::next_draw_state))]
fn next() -> Affine
    ensures { (x : ℕ) → map_value_at result x ≡ next_draw_state x }
{
    Affine {
        factor: 6_364_136_223_846_793_005,
        term: 1_442_695_040_888_963_407,
    }
}

/// The state after one.
pub(crate) fn next_draw_state(x: u64) -> u64
    ensures { result ≡ next_draw_state x }
{
    next().at(x)
}

/// The map of so many steps. It is composed of their squares, so it takes as many turns as the number has bits.
fn steps(count: u64) -> Affine
    ensures { (x : ℕ) → x < 2 ^ 64 → map_value_at result x ≡ state_after x count }
{
    let mut done = SAME;
    let mut square = next();
    let mut left = count;
    while left > 0 {
        done = done.if_odd(square, left);
        square = square.after(square);
        left /= 2;
    }
    done
}

/// The state after so many steps from a seed.
pub(crate) fn state_after(seed: u64, count: u64) -> u64
    ensures { result ≡ state_after seed count }
{
    steps(count).at(seed)
}
