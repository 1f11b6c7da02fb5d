//! The next raw token of a text: what is cut off, or why nothing can be.
ghost use Rattle.std.specs.Prelude.{◌≡◌, ◌+◌, ◌-◌, ◌<◌, ◌≤◌, length, drop, take, false};
ghost use Rattle.std.specs.Bool.{OnTrue};
ghost use Rattle.cob_lex.specs.Marks.{literal_len, solid_len};
ghost use Rattle.cob_lex.specs.Cuts.{single, ended, is_lone_hyphen, run_token, plus_token, point_token, angle_token, is_literal, literal_token, picture_token, is_the_word_is, is_is, token_by, token_at, cut, after};
ghost use Rattle.cob_lex.specs.Tokens.{is_opening, keyword, due_behind, due_after};
ghost use Rattle.cob_lex.specs.Characters.{ch_at};
ghost use Rattle.cob_lex.specs.Bounds.{IsWithin};

use crate::mark::{
    Class, ch_at, class_of, content_len, ends_rightly, inside, is_digit, is_gap, literal_len,
    run_of, solid_len, stripped, tail,
};
use crate::text::Mark;
use crate::word::{is_minus, is_unsigned, is_word, spelled_keyword};
use cob_tree::{Keyword, Rel};

/// The kinds of raw tokens.
#[derive(Clone, Copy)]
pub enum Shape {
    /// A word, and the reserved word that it is.
    Word(Option<Keyword>),
    Number,
    /// A number that gets a leading zero.
    Padded,
    /// A nonnumeric literal.
    Literal,
    /// A parenthesis or an arithmetic operator.
    Symbol,
    Relation(Rel),
    Stop,
    PictureString,
}

impl Shape {
    /// The reserved word that the token is.
    pub fn keyword(self) -> Option<Keyword>
        ensures { result ≡ keyword self }
    {
        match self {
            Shape::Word(word) => word,
            Shape::Number
            | Shape::Padded
            | Shape::Literal
            | Shape::Symbol
            | Shape::Relation(_)
            | Shape::Stop
            | Shape::PictureString => None,
        }
    }
}

/// A token, or a separator where there is no shape.
#[derive(Clone, Copy)]
pub struct Cut {
    pub shape: Option<Shape>,
    pub length: usize,
}

/// Whether a picture is due.
#[derive(Clone, Copy)]
pub enum Due {
    Nothing,
    /// Behind PIC or PICTURE: the word IS may come first.
    BehindPic,
    BehindIs,
}

/// What the text before leaves for the next token.
#[derive(Clone, Copy)]
pub struct State {
    /// Whether a space or `(` stands before.
    pub free: bool,
    pub due: Due,
}

fn single(shape: Shape) -> Option<Cut>
    ensures { result ≡ single shape }
{
    Some(Cut {
        shape: Some(shape),
        length: 1,
    })
}

fn ended(shape: Shape, count: usize, text: &[Mark]) -> Option<Cut>
    requires first { 0 < count }
    requires within { count ≤ length text.now }
    ensures value { result ≡ ended shape count text.now }
    ensures within { IsWithin result text.now }
{
    if ends_rightly(&text[count..]) {
        Some(Cut {
            shape: Some(shape),
            length: count,
        })
    } else {
        None
    }
}

fn is_lone_hyphen(front: &[Mark]) -> bool
    ensures { result ≡ is_lone_hyphen front.now }
{
    front.len() == 1 && ch_at(front, 0) == b'-'
}

/// The token that the run at the beginning of the text is.
fn run_token(free: bool, front: &[Mark], text: &[Mark]) -> Option<Cut>
    requires { length front.now ≤ length text.now }
    ensures value { result ≡ run_token free front.now text.now }
    ensures within { IsWithin result text.now }
{
    if is_lone_hyphen(front) {
        single(Shape::Symbol)
    } else if is_word(front) {
        ended(Shape::Word(spelled_keyword(front)), front.len(), text)
    } else if is_unsigned(front) || (free && is_minus(front)) {
        ended(Shape::Number, front.len(), text)
    } else {
        None
    }
}

/// A plus, or the number whose sign it is; `front` is the run behind it.
fn plus_token(free: bool, front: &[Mark], text: &[Mark]) -> Option<Cut>
    requires { length front.now < length text.now }
    ensures value { result ≡ plus_token free front.now text.now }
    ensures within { IsWithin result text.now }
{
    if free && is_unsigned(front) {
        ended(Shape::Number, front.len() + 1, text)
    } else {
        single(Shape::Symbol)
    }
}

fn point_token(free: bool, text: &[Mark]) -> Option<Cut>
    requires { 0 < length text.now }
    ensures value { result ≡ point_token free text.now }
    ensures within { IsWithin result text.now }
{
    if ch_at(text, 1) == b' ' {
        single(Shape::Stop)
    } else if is_digit(ch_at(text, 1)) {
        run_token(free, run_of(text), text)
    } else {
        None
    }
}

fn angle_token(strict: Rel, weak: Rel, text: &[Mark]) -> Option<Cut>
    requires { 0 < length text.now }
    ensures value { result ≡ angle_token strict weak text.now }
    ensures within { IsWithin result text.now }
{
    if ch_at(text, 1) == b'=' {
        Some(Cut {
            shape: Some(Shape::Relation(weak)),
            length: 2,
        })
    } else {
        single(Shape::Relation(strict))
    }
}

fn is_literal(front: &[Mark]) -> bool
    ensures { result ≡ is_literal front.now }
{
    let length = content_len(ch_at(front, 0), inside(front));
    1 <= length && length <= 160
}

fn literal_token(text: &[Mark]) -> Option<Cut>
    requires { 0 < length text.now }
    ensures value { result ≡ literal_token (literal_len (ch_at text.now 0) false (drop 1 text.now)) text.now }
    ensures within { IsWithin result text.now }
{
    match literal_len(ch_at(text, 0), tail(text)) {
        None => None,
        Some(length) => {
            if is_literal(&text[..length + 1]) {
                ended(Shape::Literal, length + 1, text)
            } else {
                None
            }
        }
    }
}

fn picture_token(front: &[Mark]) -> Option<Cut>
    ensures value { result ≡ picture_token front.now }
    ensures within { IsWithin result front.now }
{
    let picture = stripped(front);
    if picture.is_empty() {
        None
    } else {
        Some(Cut {
            shape: Some(Shape::PictureString),
            length: picture.len(),
        })
    }
}

/// The picture at the beginning of the text.
fn picture_at(text: &[Mark]) -> Option<Cut>
    ensures value { result ≡ picture_token (take (solid_len text.now) text.now) }
    ensures within { IsWithin result text.now }
{
    picture_token(&text[..solid_len(text)])
}

fn is_the_word_is(word: Option<Keyword>) -> bool
    ensures { result ≡ is_the_word_is word }
{
    matches!(word, Some(Keyword::Is))
}

fn is_is(front: &[Mark], text: &[Mark]) -> bool
    requires { length front.now ≤ length text.now }
    ensures value { result ≡ is_is front.now text.now }
    ensures some { OnTrue result (0 < length front.now) }
{
    is_word(front) && is_the_word_is(spelled_keyword(front)) && ends_rightly(&text[front.len()..])
}

fn token_by(class: Class, free: bool, text: &[Mark]) -> Option<Cut>
    requires { 0 < length text.now }
    ensures value { result ≡ token_by class free text.now }
    ensures within { IsWithin result text.now }
{
    match class {
        Class::Space | Class::Comma | Class::Other => None,
        Class::Point => point_token(free, text),
        Class::Plus => plus_token(free, run_of(tail(text)), text),
        Class::Single => single(Shape::Symbol),
        Class::EqualSign => single(Shape::Relation(Rel::Equal)),
        Class::LessSign => angle_token(Rel::Less, Rel::AtMost, text),
        Class::GreaterSign => angle_token(Rel::Greater, Rel::AtLeast, text),
        Class::QuotationMark => literal_token(text),
        Class::Run => run_token(free, run_of(text), text),
    }
}

/// The picture behind PIC, or the word IS before it.
fn picture_or_is(text: &[Mark]) -> Option<Cut>
    ensures value { result ≡ token_at Due.BehindPic false text.now }
    ensures within { IsWithin result text.now }
{
    let front = run_of(text);
    if is_is(front, text) {
        Some(Cut {
            shape: Some(Shape::Word(Some(Keyword::Is))),
            length: front.len(),
        })
    } else {
        picture_at(text)
    }
}

fn is_opening(ch: u8) -> bool
    ensures { result ≡ is_opening ch }
{
    ch == b' ' || ch == b'('
}

impl Due {
    fn behind(self, word: Option<Keyword>) -> Due
        ensures { result ≡ due_behind self word }
    {
        match (self, word) {
            (Due::Nothing, Some(Keyword::Pic | Keyword::Picture)) => Due::BehindPic,
            (Due::BehindPic, Some(Keyword::Is)) => Due::BehindIs,
            _ => Due::Nothing,
        }
    }

    fn after(self, shape: Option<Shape>) -> Due
        ensures { result ≡ due_after self shape }
    {
        match shape {
            None => self,
            Some(shape) => self.behind(shape.keyword()),
        }
    }
}

impl State {
    /// The token or separator at the beginning of the text.
    #[tactic(auto, unfolding(crate::specs::Cuts::cut))]
    pub fn cut(self, text: &[Mark]) -> Option<Cut>
        requires { 0 < length text.now }
        ensures value { result ≡ cut self text.now }
        ensures within { IsWithin result text.now }
    {
        if is_gap(text) {
            return Some(Cut {
                shape: None,
                length: 1,
            });
        }
        match self.due {
            Due::Nothing => token_by(class_of(ch_at(text, 0)), self.free, text),
            Due::BehindPic => picture_or_is(text),
            Due::BehindIs => picture_at(text),
        }
    }

    /// What holds behind a token or separator of the text.
    #[tactic(auto, unfolding(crate::specs::Cuts::after))]
    pub fn after(self, cut: Cut, text: &[Mark]) -> State
        ensures { result ≡ after self cut text.now }
    {
        State {
            free: is_opening(ch_at(text, cut.length.saturating_sub(1))),
            due: self.due.after(cut.shape),
        }
    }
}
