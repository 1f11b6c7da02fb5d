//! Laws on pictures.
ghost use Rattle.std.specs.Prelude.{◌≡◌, ℕ, ◌↔◌, List, Some};
ghost use Rattle.cob_tree.specs.declared.form.Form.{Form};
ghost use Rattle.cob_tree.specs.Pictures.{IsPicture};
ghost use Rattle.cob_tree.specs.PictureForms.{picture_form};

/// A law: a text is a picture of one form at most.
pub fn one_form()
    ensures { (text : List ℕ) (form : Form) (other : Form) → IsPicture text form → IsPicture text other → form ≡ other }
{}

/// A law: what a text is a picture of is its form as a function of the text.
pub fn picture_form_is()
    ensures { (text : List ℕ) (form : Form) → (IsPicture text form) ↔ (picture_form text ≡ Some form) }
{}
