//! How many words a row has, and how often it can grow.
ghost use Rattle.std.specs.Prelude.{◌≡◌, ℕ, ◌≤◌, ◌*◌, length};
ghost use Rattle.std.specs.List.{AllByRecursion};
ghost use Rattle.diff_bounds.specs.PackRows.{words_of, width_of, matrices_beside, packs_lattice, lists_of};

/// How many words the matrix of a pack of so many cells has.
pub fn words_of(size: usize) -> usize
    requires { size ≤ 8 }
    ensures value { result ≡ words_of size }
    ensures few { result ≤ 81 }
{
    (size + 1) * (size + 1)
}

/// How many words a row for packs of these sizes has.
pub fn width_of(sizes: &[usize]) -> usize
    requires few { length sizes.now ≤ 32 }
    requires small { AllByRecursion (λ n. n ≤ 8) sizes.now }
    ensures value { result ≡ width_of sizes.now }
    ensures within { result ≤ 81 * length sizes.now }
{
    match sizes {
        [] => 0,
        [size, rest @ ..] => words_of(*size) + width_of(rest),
    }
}

fn height_beside(sizes: &[usize], thresholds: &[Vec<i128>]) -> u64
    requires few { length sizes.now ≤ 32 }
    requires small { AllByRecursion (λ n. n ≤ 8) sizes.now }
    requires lists { AllByRecursion (λ list. length list.items ≤ 2048) thresholds.now }
    ensures value { result ≡ (matrices_beside sizes.now (lists_of thresholds.now)).height }
    ensures within { result ≤ 147528 * length sizes.now }
{
    match sizes {
        [] => 0,
        [size, sizes @ ..] => match thresholds {
            [] => 0,
            [list, thresholds @ ..] => {
                let size = *size as u64;
                size * (size + 1) * (list.as_slice().len() as u64 + 1)
                    + height_beside(sizes, thresholds)
            }
        },
    }
}

/// How often a row can grow under `widen` at most.
pub fn height_of(sizes: &[usize], thresholds: &[Vec<i128>]) -> u64
    requires few { length sizes.now ≤ 32 }
    requires small { AllByRecursion (λ n. n ≤ 8) sizes.now }
    requires lists { AllByRecursion (λ list. length list.items ≤ 2048) thresholds.now }
    ensures { result ≡ (packs_lattice sizes.now (lists_of thresholds.now)).height }
{
    height_beside(sizes, thresholds) + 1
}
