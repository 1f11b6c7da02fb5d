//! What has changed of a matrix.
ghost use Rattle.std.specs.Prelude.{◌≡◌, ◌+◌, ◌*◌, ◌≤◌, ◌<◌, IsTrue, length, IfSome};
ghost use Rattle.diff_bounds.specs.Matrix.{word, IsMatrix};
ghost use Rattle.diff_layer.specs.Tight.{AreSameBut};

// whether two words are one
fn is_same(word: i128, other: i128) -> bool
    ensures { IsTrue result → word ≡ other }
{
    word == other
}

// the first place of a word that has changed, or of the first word
fn first_change(old: &[i128], new: &[i128]) -> usize
    requires some { 1 ≤ length new.now }
    requires width { length old.now ≡ length new.now }
    ensures { result < length new.now }
{
    for k in 0..new.len() {
        if !is_same(old[k], new[k]) {
            return k;
        }
    }
    0
}

// whether no word has changed but those of a row and of its column
fn is_same_but(size: usize, old: &[i128], new: &[i128], at: usize) -> bool
    requires size { size ≤ 8 }
    requires old { length old.now ≡ (size + 1) * (size + 1) }
    requires new { length new.now ≡ (size + 1) * (size + 1) }
    ensures { IsTrue result → AreSameBut size at (word (size + 1) old.now) (word (size + 1) new.now) }
{
    let places = size + 1;
    for k in 0..new.len() {
        if k / places != at && k % places != at && !is_same(old[k], new[k]) {
            return false;
        }
    }
    true
}

// a place whose row and column have all words that have changed, if there is one
pub(crate) fn changed_place(size: usize, old: &[i128], new: &[i128]) -> Option<usize>
    requires size { size ≤ 8 }
    requires old { IsMatrix size old.now }
    requires new { IsMatrix size new.now }
    ensures { IfSome result (λ at. (at ≤ size) × AreSameBut size at (word (size + 1) old.now)
        (word (size + 1) new.now)) }
{
    let place = first_change(old, new);
    let row = place / (size + 1);
    if is_same_but(size, old, new, row) {
        return Some(row);
    }
    let column = place % (size + 1);
    if is_same_but(size, old, new, column) {
        Some(column)
    } else {
        None
    }
}
