//! What the layers of the reader hand on: tokens, the tree of a program, and the forms of items. Kinds of faults
//! stand here too, since the reader, the meaning and the checker all speak of them.
#![tactic(auto)]

mod bytes;
mod cond;
mod expr;
mod fault;
mod form;
mod front;
mod keyword;
mod kinds;
mod laws;
mod list;
mod operand;
mod picture;
mod stmt;
mod symbol;
mod token;
mod tree;
mod word;

pub use bytes::{Bytes, Name};
pub use cond::{Cond, Conj, Neg, SignTest, Simple};
pub use expr::{Expr, Fact, Primary, Scaling, Sign, Term};
pub use fault::{Kind, Open};
pub use form::{Form, Usage};
pub use front::{
    Clause, Config, Data, Described, Entry, Env, External, Fd, FdClause, Front, Io, Label, Range,
    SelClause, Select,
};
pub use keyword::{Keyword, keyword_of, keywords_differ};
pub use kinds::{Kinds, all_kinds};
pub use laws::{one_form, picture_form_is};
pub use list::Many;
pub use operand::{Const, Opnd, Recv, Ref};
pub use picture::{PicEnd, picture_of};
pub use stmt::{
    Loop, Mode, OpenPhrase, Sel, Stmt, Subject, Tail, TestPoint, Varying, Verb, Way, When,
};
pub use token::{Num, Rel, Tok, Token};
pub use tree::{EndProgram, Paragraph, Sentence, Tree};
pub use word::Word;
