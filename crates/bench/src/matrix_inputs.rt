//! Pseudorandom matrices.
ghost use Rattle.std.specs.Prelude.{◌≡◌, ◌≢◌, ◌⊎◌, ◌+◌, ◌<◌, ◌≤◌, ◌^◌, ◌≤ℤ◌, ◌<ℤ◌, pos, neg_ℤ};
ghost use Rattle.diff_bounds.specs.Matrix.{word, IsMatrix};
ghost use Rattle.diff_bounds.specs.Settled.{IsTightBut};

use diff_bounds::{NONE, add_bound, close, closed_words_are_tight, settled};

/// The words of a matrix for eight cells.
#[derive(Clone, Copy)]
pub struct Matrix {
    pub words: [i128; 81],
    // the number that the places' heights are cut out of
    base: u64,
    ghost is_matrix: { IsMatrix 8 words },
}

/// The words of a closed matrix, of which those of one row and of its column were lowered.
#[derive(Clone, Copy)]
pub struct Changed {
    pub words: [i128; 81],
    pub at: usize,
    ghost is_matrix: { IsMatrix 8 words },
    ghost is_place: { at ≤ 8 },
    ghost is_tight: { IsTightBut 9 at (word 9 words) },
}

/// Which words are bounds.
#[derive(Clone, Copy)]
pub enum Shape {
    /// All words.
    Dense,
    /// The words of each place and the next.
    Chain,
}

/// Numbers that look random: Marsaglia's xorshift of 64 bits.
#[derive(Drop)]
pub struct Numbers {
    state: u64,
}

fn no_bounds() -> [i128; 81]
    ensures { IsMatrix 8 result }
{
    let mut words = [NONE; 81];
    for place in 0..9usize {
        words[place * 9 + place] = 0;
    }
    words
}

// lowers a word of one row or of its column
#[tactic(auto, using(diff_bounds::proofs::Tight::tight_but_one))]
fn lower(m: &mut [i128; 81], at: usize, row: usize, column: usize, most: i128)
    requires matrix { IsMatrix 8 m.old }
    requires tight { IsTightBut 9 at (word 9 m.old) }
    requires row { row < 9 }
    requires column { column < 9 }
    requires different { row ≢ column }
    requires one { (row ≡ at) ⊎ (column ≡ at) }
    requires low { neg_ℤ (pos (2 ^ 64)) <ℤ most }
    requires high { most <ℤ pos (2 ^ 65) }
    ensures matrix { IsMatrix 8 m.new }
    ensures tight { IsTightBut 9 at (word 9 m.new) }
{
    add_bound(8, m, row, column, most);
}

fn is_bound(shape: Shape, row: usize, column: usize) -> bool {
    match shape {
        Shape::Dense => true,
        Shape::Chain => row < 9 && column < 9 && (row + 1 == column || column + 1 == row),
    }
}

impl Numbers {
    pub(super) fn new() -> Self {
        Numbers {
            state: 88_172_645_463_325_252,
        }
    }

    pub(super) fn next(&mut self) -> u64 {
        self.state ^= self.state << 13;
        self.state ^= self.state >> 7;
        self.state ^= self.state << 17;
        self.state
    }

    // The difference of two places' heights and a number that isn't negative, so that no cycle is negative.
    fn bound(&mut self, base: u64, row: usize, column: usize) -> i128
        requires row { row < 9 }
        requires column { column < 9 }
        ensures low { neg_ℤ (pos (2 ^ 64)) <ℤ result }
        ensures high { result <ℤ pos (2 ^ 65) }
    {
        let high = (base >> row) as i128;
        let low = (base >> column) as i128;
        let more = (self.next() >> 5) as i128;
        high - low + more
    }

    pub(super) fn matrix(&mut self, shape: Shape) -> Matrix {
        let mut words = no_bounds();
        let base = self.next();
        for row in 0..9usize {
            for column in 0..9usize {
                if row != column && is_bound(shape, row, column) {
                    let most = self.bound(base, row, column);
                    add_bound(8, &mut words, row, column, most);
                }
            }
        }
        Matrix { words, base }
    }

    // lowers words of the row and of the column of a place
    fn lower_row(&mut self, m: &mut [i128; 81], base: u64, at: usize)
        requires matrix { IsMatrix 8 m.old }
        requires tight { IsTightBut 9 at (word 9 m.old) }
        requires at { at < 9 }
        ensures matrix { IsMatrix 8 m.new }
        ensures tight { IsTightBut 9 at (word 9 m.new) }
    {
        for place in 0..9usize {
            if place != at {
                let most = self.bound(base, at, place);
                lower(m, at, at, place, most);
                let most_back = self.bound(base, place, at);
                lower(m, at, place, at, most_back);
            }
        }
    }

    /// The matrix closed, and then changed; nothing where it has no closure that is settled.
    pub(super) fn changed(&mut self, matrix: &Matrix, at: usize) -> Option<Changed>
        requires { at < 9 }
    {
        let mut words = matrix.words;
        if !close(8, &mut words) {
            return None;
        }
        if !settled(8, &words) {
            return None;
        }
        closed_words_are_tight(8);
        self.lower_row(&mut words, matrix.base, at);
        Some(Changed { words, at })
    }
}
