//! Rows of both layers, written.
use diff_bounds::NONE;
use std::alloc::{AllocError, Global};

/// What the words of a row are of.
#[derive(Clone, Copy)]
pub enum RowKind {
    Cells,
    Packs,
}

// ---- cells

fn write_known(text: &mut String, low: i128, high: i128) -> Result<(), AllocError> {
    if low <= high {
        write!(text, "{low} {high}")
    } else {
        text.push_str("- -")
    }
}

fn write_cells(text: &mut String, words: &[i128]) -> Result<(), AllocError> {
    for (k, pair) in words.chunks_exact(2).enumerate() {
        if k > 0 {
            text.push(' ')?;
        }
        if let [low, high] = pair {
            write_known(text, *low, *high)?;
        }
    }
    Ok(())
}

fn write_row(text: &mut String, row: &[i128]) -> Result<(), AllocError> {
    match row {
        [1, words @ ..] => write_cells(text, words),
        _ => text.push_str("unreached"),
    }
}

// ---- matrices of packs

fn write_word(text: &mut String, word: i128) -> Result<(), AllocError> {
    if word == NONE {
        text.push('-')
    } else {
        write!(text, "{word}")
    }
}

fn write_words(text: &mut String, row: &[i128]) -> Result<(), AllocError> {
    for (at, word) in row.iter().enumerate() {
        if at > 0 {
            text.push(' ')?;
        }
        write_word(text, *word)?;
    }
    Ok(())
}

/// The words of a row.
pub fn shown_row(alloc: Global, kind: RowKind, row: &[i128]) -> Result<String, AllocError> {
    let mut text = String::new(alloc);
    match kind {
        RowKind::Cells => write_row(&mut text, row)?,
        RowKind::Packs => write_words(&mut text, row)?,
    }
    Ok(text)
}
