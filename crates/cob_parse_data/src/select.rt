//! SELECT entries.
ghost use Rattle.std.specs.Prelude.{◌≡◌, ◌+◌, ◌<◌, ◌≤◌, ◌∷◌, [], length, IfOk, IfSome, IfNone, map};
ghost use Rattle.cob_parse_expr.specs.Lexemes.{plain_symbol};
ghost use Rattle.cob_parse_expr.specs.Steps.{signs, Leads, Lacks, Gives};
ghost use Rattle.cob_tree.specs.declared.keyword.Keyword.TheVariants as key;
ghost use Rattle.reading.specs.Readers.{among, fresh};
ghost use Rattle.cob_parse_expr.specs.LexemeClasses.{of};
ghost use Rattle.cob_parse_data.specs.Heads.{same_kind, select_symbol, select_kind, select_head_of};
ghost use Rattle.cob_parse_data.specs.Reading.{select_body, select_clauses, select, selects};

use crate::class::external_at;
use crate::head::SelectHead;
use cob_parse_expr::{Halt, Lexeme, Symbol, expect, line_of, name_at, next, stands, stop};
use cob_tree::{Keyword, Many, SelClause, Select};
use std::alloc::Global;

fn select_head(symbol: &Symbol) -> Option<SelectHead>
    ensures { result ≡ select_symbol (plain_symbol symbol.now) }
{
    match symbol {
        Symbol::Key(Keyword::Organization) => Some(SelectHead::Organization),
        Symbol::Key(Keyword::Access) => Some(SelectHead::Access),
        Symbol::Key(Keyword::Status) => Some(SelectHead::Status),
        _ => None,
    }
}

fn head_of(clause: &SelClause) -> SelectHead
    ensures { result ≡ select_head_of clause.now }
{
    match clause {
        SelClause::Organization => SelectHead::Organization,
        SelClause::Access => SelectHead::Access,
        SelClause::Status(_) => SelectHead::Status,
    }
}

fn same_kind(first: SelectHead, second: SelectHead) -> bool
    ensures { result ≡ same_kind select_kind first second }
{
    match first {
        SelectHead::Organization => matches!(second, SelectHead::Organization),
        SelectHead::Access => matches!(second, SelectHead::Access),
        SelectHead::Status => matches!(second, SelectHead::Status),
    }
}

// Whether a clause of the kind was read.
fn is_among(head: SelectHead, clauses: &[SelClause]) -> bool
    ensures { result ≡ among (same_kind select_kind) head (map select_head_of clauses.now) }
{
    match clauses {
        [] => false,
        [clause, rest @ ..] => same_kind(head, head_of(clause)) || is_among(head, rest),
    }
}

// The word of a clause of a kind that wasn't read yet.
fn fresh_head<'a>(
    clauses: &[SelClause],
    lexemes: &'a [Lexeme],
) -> Option<(SelectHead, &'a [Lexeme])>
    ensures found { IfSome result (λ x. Leads (fresh (same_kind select_kind) (of select_symbol) (map select_head_of clauses.now)) x.0 (signs lexemes.now) (signs x.1.now)) }
    ensures none { IfNone result (Lacks (fresh (same_kind select_kind) (of select_symbol) (map select_head_of clauses.now)) (signs lexemes.now)) }
    ensures shorter { IfSome result (λ x. length lexemes.now ≡ length x.1.now + 1) }
{
    let (lexeme, rest) = next(lexemes)?;
    let head = select_head(&lexeme.symbol)?;
    if is_among(head, clauses) {
        None
    } else {
        Some((head, rest))
    }
}

fn clause_behind(
    alloc: Global,
    head: SelectHead,
    lexemes: &[Lexeme],
) -> Result<(SelClause, &[Lexeme]), Halt>
    ensures gives { Gives (λ x. (x.0, signs x.1.now)) result (select_body head (signs lexemes.now)) }
    ensures headed { IfOk result (λ x. select_head_of x.0 ≡ head) }
    ensures rest { IfOk result (λ x. length x.1.now ≤ length lexemes.now) }
{
    match head {
        SelectHead::Organization => {
            let rest = or_leave!(expect(Keyword::Sequential, lexemes));
            Ok((SelClause::Organization, rest))
        }
        SelectHead::Access => {
            let rest = or_leave!(expect(Keyword::Sequential, lexemes));
            Ok((SelClause::Access, rest))
        }
        SelectHead::Status => {
            let (name, rest) = or_leave!(name_at(alloc, lexemes));
            Ok((SelClause::Status(name), rest))
        }
    }
}

fn clauses(alloc: Global, lexemes: &[Lexeme]) -> Result<(Vec<SelClause>, &[Lexeme]), Halt>
    ensures gives { Gives (λ x. (x.0.items, signs x.1.now)) result (select_clauses (signs lexemes.now)) }
    ensures rest { IfOk result (λ x. length x.1.now ≤ length lexemes.now) }
{
    let mut left = lexemes;
    let mut clauses = Vec::new(alloc);
    'clauses: while let Some((head, rest)) = fresh_head(clauses.as_slice(), left) {
        let (clause, after) = or_leave!(clause_behind(alloc, head, rest), clauses);
        clauses.push(clause)?;
        left = after;
    }
    Ok((clauses, left))
}

/// A SELECT entry.
fn select(alloc: Global, lexemes: &[Lexeme]) -> Result<(Select, &[Lexeme]), Halt>
    ensures gives { Gives (λ x. (x.0, signs x.1.now)) result (select (signs lexemes.now)) }
    ensures rest { IfOk result (λ x. length x.1.now < length lexemes.now) }
{
    let (line, rest) = or_leave!(line_of(Keyword::Select, lexemes));
    let (name, rest) = or_leave!(name_at(alloc, rest));
    let rest = or_leave!(expect(Keyword::Assign, rest), name);
    let (external, rest) = or_leave!(external_at(alloc, rest), name);
    let (clauses, rest) = or_leave!(clauses(alloc, rest), name, external);
    let rest = or_leave!(stop(rest), name, external, clauses);
    let clauses = Many::of(clauses);
    Ok((
        Select {
            line,
            name,
            external,
            clauses,
        },
        rest,
    ))
}

/// Any number of SELECT entries.
pub fn selects(alloc: Global, lexemes: &[Lexeme]) -> Result<(Vec<Select>, &[Lexeme]), Halt>
    ensures gives { Gives (λ x. (x.0.items, signs x.1.now)) result (selects (signs lexemes.now)) }
    ensures rest { IfOk result (λ x. length x.1.now ≤ length lexemes.now) }
{
    let mut left = lexemes;
    let mut selects = Vec::new(alloc);
    'selects: while stands(Keyword::Select, left) {
        let (select, after) = or_leave!(select(alloc, left), selects);
        selects.push(select)?;
        left = after;
    }
    Ok((selects, left))
}
