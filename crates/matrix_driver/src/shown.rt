//! Answers, written.
use diff_bounds::Lin;
use interval_domain::{Class, Interval};
use std::alloc::{AllocError, Global};

/// What a call answers.
#[derive(Clone, Copy)]
pub enum Answer {
    None,
    Number(i128),
    Form(Lin),
    Words([i128; 81]),
    Range(Interval),
    Class(Class),
}

fn write_all(text: &mut String, numbers: &[i128]) -> Result<(), AllocError> {
    for number in numbers {
        write!(text, "{number} ")?;
    }
    Ok(())
}

fn write_range(text: &mut String, range: Interval) -> Result<(), AllocError> {
    write!(text, "{} {} ", range.low, range.high)
}

fn write_form(text: &mut String, form: &Lin) -> Result<(), AllocError> {
    write_all(text, &form.coefs)?;
    write_range(text, form.constant)
}

fn class_word(class: Class) -> &'static str {
    match class {
        Class::Unknown => "unknown",
        Class::Numeric => "numeric",
    }
}

/// The answer's numbers, with a blank behind each, or its class, or `none`.
pub fn written(alloc: Global, answer: &Answer) -> Result<String, AllocError> {
    let mut text = String::new(alloc);
    match answer {
        Answer::None => text.push_str("none")?,
        Answer::Number(number) => write!(text, "{number} ")?,
        Answer::Form(form) => write_form(&mut text, form)?,
        Answer::Words(words) => write_all(&mut text, words)?,
        Answer::Range(range) => write_range(&mut text, *range)?,
        Answer::Class(class) => text.push_str(class_word(*class))?,
    }
    Ok(text)
}
