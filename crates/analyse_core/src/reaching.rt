//! The paragraphs that a PERFORM reaches, and what it mentions with them.
ghost use Rattle.std.specs.Prelude.{◌≡◌, ◌++◌, ◌==◌, [], length, if◌then◌else◌, IfOk, OnOk};
ghost use Rattle.analyse_core.specs.Mentions.{lists_of};
ghost use Rattle.analyse_core.specs.Reaching.{
  is_in_mention,
  is_performed,
  is_performed_by,
  is_performed_in,
  is_same,
  marks_of,
  mentions_from,
  performs,
  reached,
  same_marks,
  whole_mentions,
};

use crate::mention::Mention;
use std::alloc::{AllocError, Global};

fn is_in_mention(para: usize, mention: Mention) -> bool
    ensures { result ≡ is_in_mention para mention }
{
    match mention {
        Mention::Item(_) => false,
        Mention::Range(first, last) => first as usize <= para && para <= last as usize,
    }
}

fn is_performed(para: usize, mentions: &[Mention]) -> bool
    ensures { result ≡ is_performed para mentions.now }
{
    for mention in mentions {
        if is_in_mention(para, *mention) {
            return true;
        }
    }
    false
}

fn performs(para: usize, mark: bool, text: &[Mention]) -> bool
    ensures { result ≡ performs para mark text.now }
{
    mark && is_performed(para, text)
}

fn is_performed_in(marks: &[bool], texts: &[Vec<Mention>], para: usize) -> bool
    requires { length marks.now ≡ length texts.now }
    ensures { result ≡ is_performed_in marks.now (lists_of texts.now) para }
{
    for k in 0..marks.len() {
        if performs(para, marks[k], texts[k].as_slice()) {
            return true;
        }
    }
    false
}

fn is_performed_by(own: &[Mention], marks: &[bool], texts: &[Vec<Mention>], para: usize) -> bool
    requires { length marks.now ≡ length texts.now }
    ensures { result ≡ is_performed_by (lists_of texts.now) own.now marks.now para }
{
    is_performed(para, own) || is_performed_in(marks, texts, para)
}

// The paragraphs that the statement itself performs.
fn first_marks(
    alloc: Global,
    texts: &[Vec<Mention>],
    own: &[Mention],
) -> Result<Vec<bool>, AllocError>
    ensures { IfOk result (λ marks. marks.items ≡ marks_of (lists_of texts.now) own.now (λ para. is_performed para own.now)) }
{
    let mut marks = Vec::with_capacity(alloc, texts.len())?;
    for para in 0..texts.len() {
        marks.push(is_performed(para, own))?;
    }
    Ok(marks)
}

// The marked ones, and what they perform.
fn next_marks(
    alloc: Global,
    texts: &[Vec<Mention>],
    own: &[Mention],
    marks: &[bool],
) -> Result<Vec<bool>, AllocError>
    requires { length marks.now ≡ length texts.now }
    ensures { IfOk result (λ next. next.items
        ≡ marks_of (lists_of texts.now) own.now (is_performed_by (lists_of texts.now) own.now marks.now)) }
{
    let mut next = Vec::with_capacity(alloc, texts.len())?;
    for para in 0..texts.len() {
        next.push(is_performed_by(own, marks, texts, para))?;
    }
    Ok(next)
}

fn is_same(a: bool, b: bool) -> bool
    ensures { result ≡ is_same a b }
{
    a == b
}

fn same_marks(next: &[bool], marks: &[bool]) -> bool
    requires { length next.now ≡ length marks.now }
    ensures { result ≡ same_marks next.now marks.now }
{
    for k in 0..marks.len() {
        if !is_same(next[k], marks[k]) {
            return false;
        }
    }
    true
}

// A mark for each paragraph: whether it is reached.
fn reached(alloc: Global, texts: &[Vec<Mention>], own: &[Mention]) -> Result<Vec<bool>, AllocError>
    ensures value { IfOk result (λ marks. marks.items ≡ reached (lists_of texts.now) own.now) }
    ensures wide { IfOk result (λ marks. length marks.items ≡ length texts.now) }
{
    let mut marks = first_marks(alloc, texts, own)?;
    for round in 0..texts.len() {
        let next = next_marks(alloc, texts, own, marks.as_slice())?;
        if same_marks(next.as_slice(), marks.as_slice()) {
            return Ok(marks);
        }
        marks = next;
    }
    Ok(marks)
}

fn add_all(mentions: &mut Vec<Mention>, more: &[Mention]) -> Result<(), AllocError>
    ensures { OnOk result (mentions.new.items ≡ mentions.old.items ++ more.now) }
{
    for mention in more {
        mentions.push(*mention)?;
    }
    Ok(())
}

// What is mentioned at a paragraph: all of it, where it is reached, or else what the statement mentions, where it stands there.
fn add_text(
    mentions: &mut Vec<Mention>,
    is_reached: bool,
    text: &[Mention],
    is_home: bool,
    own: &[Mention],
) -> Result<(), AllocError>
    ensures { OnOk result (mentions.new.items
        ≡ mentions.old.items ++ (if is_reached then text.now else if is_home then own.now else [])) }
{
    if is_reached {
        return add_all(mentions, text);
    }
    if is_home {
        return add_all(mentions, own);
    }
    Ok(())
}

fn add_texts(
    mentions: &mut Vec<Mention>,
    marks: &[bool],
    texts: &[Vec<Mention>],
    own: &[Mention],
    home: usize,
) -> Result<(), AllocError>
    requires { length marks.now ≡ length texts.now }
    ensures { OnOk result (mentions.new.items
        ≡ mentions.old.items ++ mentions_from own.now home 0 marks.now (lists_of texts.now)) }
{
    for para in 0..marks.len() {
        add_text(
            mentions,
            marks[para],
            texts[para].as_slice(),
            para == home,
            own,
        )?;
    }
    Ok(())
}

/// What a statement in a paragraph mentions with what it reaches, in the order of the source.
pub fn whole_mentions(
    alloc: Global,
    texts: &[Vec<Mention>],
    own: &[Mention],
    home: usize,
) -> Result<Vec<Mention>, AllocError>
    ensures { IfOk result (λ mentions. mentions.items ≡ whole_mentions (lists_of texts.now) own.now home) }
{
    let marks = reached(alloc, texts, own)?;
    let mut mentions = Vec::new(alloc);
    add_texts(&mut mentions, marks.as_slice(), texts, own, home)?;
    Ok(mentions)
}
