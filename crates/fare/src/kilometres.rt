// Started kilometres by a good first guess, with the search behind it. What is looked for is the last number of kilometres that is not enough:
// from the guess on it goes down while what it has is enough, and then up while one more is not. So the answer is right whatever the guess was;
// a good one only saves turns.
ghost use Rattle.std.specs.Prelude.{◌≡◌, ◌+◌, ◌≤◌, ◌<◌};
ghost use Rattle.layout.specs.Rules.{most_metres};
ghost use Rattle.fare.specs.Distance.{square, LeastKm};
ghost use Rattle.fare.specs.Clauses.{most_guess, farthest, Short};

use units::Km;

// The longer way and three eighths of the shorter miss the distance by at most 7 in 100, and the middle of that and of d divided by it by at most
// 3 in 1,000 (Heron's rule). All that is promised of the guess is that it is not too large to go on with.
fn guess(longer: u64, shorter: u64, d: u64) -> u64
    requires { (0 < longer) × (shorter ≤ longer) × (longer ≤ most_metres) × (d ≡ square longer + square shorter) }
    ensures { result ≤ most_guess }
{
    let near = longer + shorter * 3 / 8;
    (near + d / near) / 2_000
}

// A number of kilometres that is not enough: the guess, or as many fewer as it takes.
fn not_enough(d: u64, guess: u64) -> u64
    requires { (0 < d) × (guess ≤ most_guess) }
    ensures { Short d result }
{
    let mut below = guess;
    while d <= (1_000 * below) * (1_000 * below) {
        below -= 1;
    }
    below
}

// The first number of kilometres that is enough, from one that is not.
fn first_enough(d: u64, start: u64) -> u64
    requires { (d ≤ farthest) × Short d start }
    ensures { LeastKm d result }
{
    let mut below = start;
    while (1_000 * (below + 1)) * (1_000 * (below + 1)) < d {
        below += 1;
    }
    below + 1
}

// The least k with longer² + shorter² ≤ (1,000 k)².
pub fn least_km(longer: u64, shorter: u64) -> Km
    requires { (shorter ≤ longer) × (longer ≤ most_metres) }
    ensures { LeastKm (square longer + square shorter) result.0 }
{
    if longer == 0 {
        return Km(0);
    }
    let d = longer * longer + shorter * shorter;
    Km(first_enough(d, not_enough(d, guess(longer, shorter, d))) as u32)
}
