//! One round of the permutation: theta, then rho and pi together, then chi and iota.
ghost use Rattle.std.specs.Prelude.{◌≡◌, ℕ, ◌<◌};
ghost use Rattle.keccak.specs.Keccak.{state, theta, rho, pi, chi, round};

use crate::tables::OFFSETS;

// The state whose lane (x, y), which stands at 5 * y + x, is f of x and y: a lane's place is both, so two loops go over them.
fn state_of<F: Fn(usize, usize) -> u64>(f: F) -> [u64; 25]
    requires { (x y : ℕ) → x < 5 → y < 5 → F.pre f x y }
    ensures { (h : ℕ → ℕ → ℕ) → ((x y r : ℕ) → x < 5 → y < 5 → F.post f x y r → r ≡ h x y) → result ≡ state h }
{
    let mut lanes = [0; 25];
    for y in 0..5 {
        for x in 0..5 {
            lanes[5 * y + x] = f(x, y);
        }
    }
    lanes
}

// Adds to each lane the parities of two columns.
fn mix_columns(a: [u64; 25]) -> [u64; 25]
    ensures { result ≡ theta a }
{
    let mut sums = [0; 5];
    for (x, sum) in sums.iter_mut().enumerate() {
        *sum = a[x] ^ a[x + 5] ^ a[x + 10] ^ a[x + 15] ^ a[x + 20];
    }
    state_of(|x, y| a[5 * y + x] ^ (sums[(x + 4) % 5] ^ sums[(x + 1) % 5].rotate_left(1)))
}

// Rotates each lane, and moves it to its new place.
fn spread(a: [u64; 25]) -> [u64; 25]
    ensures { result ≡ pi (rho a) }
{
    state_of(|x, y| {
        let from = 5 * x + (x + 3 * y) % 5;
        a[from].rotate_left(OFFSETS[from])
    })
}

// Adds to each lane a product of the next two of its row.
fn mix_rows(a: [u64; 25]) -> [u64; 25]
    ensures { result ≡ chi a }
{
    state_of(|x, y| a[5 * y + x] ^ (!a[5 * y + (x + 1) % 5] & a[5 * y + (x + 2) % 5]))
}

// One round, with its constant.
pub(crate) fn one_round(lanes: &mut [u64; 25], constant: u64)
    ensures { lanes.new ≡ round lanes.old constant }
{
    *lanes = mix_rows(spread(mix_columns(*lanes)));
    lanes[0] ^= constant;
}
