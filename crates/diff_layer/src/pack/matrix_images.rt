//! What is left of a matrix, as a list: behind an assignment, a demand, or where a cell is forgotten.
ghost use Rattle.std.specs.Prelude.{◌≡◌, ◌<◌, ◌≤◌, IfSome};
ghost use Rattle.diff_bounds.specs.Matrix.{IsMatrix};
ghost use Rattle.diff_steps.specs.Matrices.{
  forgotten as forgotten_matrix,
  assigned as assigned_matrix,
  demanded as demanded_matrix,
  lesser as lesser_matrix,
};
ghost use Rattle.diff_steps.specs.Stores.{assigned_or_forgotten};
ghost use Rattle.diff_layer.specs.Forms.{IsFormOf};

use diff_bounds::{Lin, assign, demand, forget};

// leaves nothing that the matrix says of a cell
pub(crate) fn forget_cell(size: usize, m: &mut [i128], cell: usize)
    requires size { size ≤ 8 }
    requires m { IsMatrix size m.old }
    requires first { 1 ≤ cell }
    requires last { cell ≤ size }
    ensures value { m.new ≡ forgotten_matrix size cell m.old }
    ensures matrix { IsMatrix size m.new }
{
    forget(size, m, cell);
}

// makes the words of a cell bounds of the form
fn assign_form(size: usize, m: &mut [i128], to: usize, form: &Lin)
    requires size { size ≤ 8 }
    requires m { IsMatrix size m.old }
    requires first { 1 ≤ to }
    requires last { to ≤ size }
    requires form { IsFormOf size form.now }
    ensures value { m.new ≡ assigned_matrix size to form.now m.old }
    ensures matrix { IsMatrix size m.new }
{
    assign(size, m, to, form);
}

// lowers the words by the demand that the form is at most 0
pub(crate) fn demand_form(size: usize, m: &mut [i128], form: &Lin)
    requires size { size ≤ 8 }
    requires m { IsMatrix size m.old }
    requires form { IsFormOf size form.now }
    ensures value { m.new ≡ demanded_matrix size form.now m.old }
    ensures matrix { IsMatrix size m.new }
{
    demand(size, m, form);
}

/// Makes the words of a cell bounds of the form, or leaves nothing that the matrix says of it where there is none.
pub fn assign_or_forget(size: usize, m: &mut [i128], to: usize, form: Option<Lin>)
    requires size { size ≤ 8 }
    requires m { IsMatrix size m.old }
    requires first { 1 ≤ to }
    requires last { to ≤ size }
    requires form { IfSome form (IsFormOf size) }
    ensures value { m.new ≡ assigned_or_forgotten size to form m.old }
    ensures matrix { IsMatrix size m.new }
{
    match form {
        Some(form) => assign_form(size, m, to, &form),
        None => forget_cell(size, m, to),
    }
}

/// Lowers each word to that of another matrix, where that is less.
pub fn lower_to(size: usize, m: &mut [i128], other: &[i128])
    requires m { IsMatrix size m.old }
    requires other { IsMatrix size other.now }
    ensures value { m.new ≡ lesser_matrix size m.old other.now }
    ensures matrix { IsMatrix size m.new }
{
    for k in 0..m.len() {
        m[k] = m[k].min(other[k]);
    }
}
