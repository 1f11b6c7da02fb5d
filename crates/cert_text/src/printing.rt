//! Printing a certificate's text.
ghost use Rattle.std.specs.Prelude.{◌≡◌, ◌++◌, ◌∷◌, [], ◌+◌, OnOk, IfOk, map, length, pos};
ghost use Rattle.cert_text.specs.Text.{Entry, entry, name, numbers_text, entries_text, pack_entry, claim_entry, bound_entry, place_entries, nodes_entries, heading, spelling};
ghost use Rattle.cert_text.specs.View.{view, place_of};
ghost use Rattle.cert_text.specs.declared.word.Word.TheVariants as words;

use crate::cert::{Bound, Cert, Claim, Element};
use crate::word::Word;
use diff_bounds::Pack;
use itoa::{Buffer, Integer};
use std::alloc::{AllocError, Global};

// Adds a space and the number.
fn push_number<I: Integer>(text: &mut Vec<u8>, number: I) -> Result<(), AllocError>
    ensures { OnOk result (text.new.items ≡ text.old.items ++ (32 ∷ I.text number)) }
{
    let mut buffer = Buffer::new();
    text.push(b' ')?;
    text.extend_from_slice(buffer.format(number).as_bytes())?;
    Ok(())
}

// Adds a line of a word and one number.
fn push_line(text: &mut Vec<u8>, word: Word, number: u64) -> Result<(), AllocError>
    ensures { OnOk result (text.new.items ≡ text.old.items ++ entries_text (entry word (pos number ∷ []) ∷ [])) }
{
    text.extend_from_slice(word.name())?;
    push_number(text, number)?;
    text.push(b'\n')?;
    Ok(())
}

fn push_claim(text: &mut Vec<u8>, claim: &Claim) -> Result<(), AllocError>
    ensures { OnOk result (text.new.items ≡ text.old.items ++ entries_text (claim_entry claim.now ∷ [])) }
{
    text.extend_from_slice(Word::Claim.name())?;
    push_number(text, claim.cell)?;
    push_number(text, claim.low)?;
    push_number(text, claim.high)?;
    text.push(b'\n')?;
    Ok(())
}

fn push_bound(text: &mut Vec<u8>, bound: &Bound) -> Result<(), AllocError>
    ensures { OnOk result (text.new.items ≡ text.old.items ++ entries_text (bound_entry bound.now ∷ [])) }
{
    text.extend_from_slice(Word::Bound.name())?;
    push_number(text, bound.pack)?;
    push_number(text, bound.row)?;
    push_number(text, bound.column)?;
    push_number(text, bound.most)?;
    text.push(b'\n')?;
    Ok(())
}

fn push_cells(text: &mut Vec<u8>, cells: &[u32]) -> Result<(), AllocError>
    ensures { OnOk result (text.new.items ≡ text.old.items ++ numbers_text (map pos cells.now)) }
{
    for cell in cells {
        push_number(text, *cell)?;
    }
    Ok(())
}

fn push_pack(text: &mut Vec<u8>, pack: &Pack) -> Result<(), AllocError>
    ensures { OnOk result (text.new.items ≡ text.old.items ++ entries_text (pack_entry pack.now.cells.items ∷ [])) }
{
    text.extend_from_slice(Word::Pack.name())?;
    push_cells(text, pack.cells.as_slice())?;
    text.push(b'\n')?;
    Ok(())
}

fn push_claims(text: &mut Vec<u8>, claims: &[Claim]) -> Result<(), AllocError>
    ensures { OnOk result (text.new.items ≡ text.old.items ++ entries_text (map claim_entry claims.now)) }
{
    for claim in claims {
        push_claim(text, claim)?;
    }
    Ok(())
}

fn push_bounds(text: &mut Vec<u8>, bounds: &[Bound]) -> Result<(), AllocError>
    ensures { OnOk result (text.new.items ≡ text.old.items ++ entries_text (map bound_entry bounds.now)) }
{
    for bound in bounds {
        push_bound(text, bound)?;
    }
    Ok(())
}

fn push_packs(text: &mut Vec<u8>, packs: &[Pack]) -> Result<(), AllocError>
    ensures { OnOk result (text.new.items ≡ text.old.items ++ entries_text (map pack_entry (map (λ p. p.cells.items) packs.now))) }
{
    for pack in packs {
        push_pack(text, pack)?;
    }
    Ok(())
}

// Adds the lines of a node.
fn push_node(text: &mut Vec<u8>, number: u64, node: &Element) -> Result<(), AllocError>
    ensures { OnOk result (text.new.items ≡ text.old.items ++ entries_text (place_entries number (place_of node.now))) }
{
    match node {
        Element::Unreached => push_line(text, Word::Never, number),
        Element::At { cells, bounds } => {
            push_line(text, Word::Node, number)?;
            push_claims(text, cells.as_slice())?;
            push_bounds(text, bounds.as_slice())
        }
    }
}

fn push_nodes(text: &mut Vec<u8>, nodes: &[Element]) -> Result<(), AllocError>
    ensures { OnOk result (text.new.items ≡ text.old.items ++ entries_text (nodes_entries 1 (map place_of nodes.now))) }
{
    let mut number = 0;
    for node in nodes {
        number += 1;
        push_node(text, number, node)?;
    }
    Ok(())
}

fn push_heading(text: &mut Vec<u8>, cert: &Cert) -> Result<(), AllocError>
    ensures { OnOk result (text.new.items ≡ text.old.items ++ entries_text (heading cert.now.cells (length cert.now.nodes.items) (length cert.now.packs.items))) }
{
    push_line(text, Word::Title, 1)?;
    push_line(text, Word::Cells, u64::from(cert.cells))?;
    push_line(text, Word::Nodes, cert.nodes.len() as u64)?;
    push_line(text, Word::Packs, cert.packs.len() as u64)
}

fn push_end(text: &mut Vec<u8>) -> Result<(), AllocError>
    ensures { OnOk result (text.new.items ≡ text.old.items ++ entries_text (entry words.End [] ∷ [])) }
{
    text.extend_from_slice(Word::End.name())?;
    text.push(b'\n')?;
    Ok(())
}

/// The text of a certificate, which `read` reads back where the certificate is allowed.
pub fn print(alloc: Global, cert: &Cert) -> Result<Vec<u8>, AllocError>
    ensures { IfOk result (λ text. text.items ≡ spelling (view cert.now)) }
{
    let mut text = Vec::new(alloc);
    push_heading(&mut text, cert)?;
    push_packs(&mut text, cert.packs.as_slice())?;
    push_nodes(&mut text, cert.nodes.as_slice())?;
    push_end(&mut text)?;
    Ok(text)
}
