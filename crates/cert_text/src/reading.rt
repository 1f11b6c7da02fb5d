//! Reading a certificate's text.
ghost use Rattle.std.specs.Prelude.{◌≡◌, IfOk, IfErr};
ghost use Rattle.cert_text.specs.Draft.{parts_of, certificate_of};
ghost use Rattle.cert_text.specs.View.{Certificate, view};
ghost use Rattle.cert_text.specs.Allowed.{IsAllowed};
ghost use Rattle.cert_text.specs.Text.{spelling};
ghost use Rattle.cert_text.specs.Texts.{RefusedBy};
ghost use Rattle.cert_text.specs.Whole.{Gives, read_of};

use crate::cert::{Cert, CertEnd};
use crate::draft::{Draft, Stage};
use crate::split_line;
use std::alloc::Global;

fn certificate(draft: Draft) -> Cert
    ensures { view result ≡ certificate_of (parts_of draft) }
{
    Cert {
        cells: draft.cells,
        packs: draft.packs,
        nodes: draft.nodes,
    }
}

#[tactic(auto, unfolding(crate::specs::Whole::read_of))]
fn read_lines(alloc: Global, bytes: &[u8]) -> Result<Cert, CertEnd>
    ensures { Gives result (read_of bytes.now) }
{
    let mut draft = Draft::new(alloc);
    let mut numbers = Vec::new(alloc);
    let mut rest = bytes;
    let mut line: u32 = 1;
    while let Some((first, after)) = split_line(rest) {
        if !draft.read_line(alloc, first, &mut numbers)? {
            return Err(CertEnd::Syntax { line });
        }
        rest = after;
        line = line.saturating_add(1);
    }
    if draft.stage.is_at(Stage::Ended) && rest.is_empty() {
        Ok(certificate(draft))
    } else {
        Err(CertEnd::Syntax { line })
    }
}

/// The certificate whose text the bytes are.
pub fn read(alloc: Global, bytes: &[u8]) -> Result<Cert, CertEnd>
    // What is read is allowed, and the bytes spell it.
    ensures found { IfOk result (λ c. IsAllowed (view c) × (bytes.now ≡ spelling (view c))) }
    // What is allowed and spelled so is read, unless memory runs out.
    ensures only { (c : Certificate) → IsAllowed c → bytes.now ≡ spelling c → Gives result (Ok c) }
    // A refusal names the first line with which no certificate's text goes on.
    ensures refused { IfErr result (RefusedBy bytes.now) }
{
    read_lines(alloc, bytes)
}
