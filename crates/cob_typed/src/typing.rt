//! A tree as a program of the profile, or the first rule on statements that it breaks.
#![tactic(auto, using(crate::proofs::FoundLemmas::found_append))]

ghost use Rattle.std.specs.Prelude.{◌≡◌, ℕ, ◌+◌, ◌++◌, List, [], map, if◌then◌else◌, IfOk, OnOk};
ghost use Rattle.std.specs.Str.{bytes_eq};
ghost use Rattle.rule_order.specs.Order.{least, first_broken};
ghost use Rattle.cob_tree.specs.Stmt as tree_spec;
ghost use Rattle.cob_tree.specs.StmtView.{plain_sentence, plain_paragraph, plain_tree};
ghost use Rattle.cob_data.specs.declared.end.Rule.{Rule};
ghost use Rattle.cob_data.specs.declared.layout.Layout.{Layout};
ghost use Rattle.cob_program.specs.Act.{stmts_of};
ghost use Rattle.cob_program.specs.ActView.{plain_stmt, plain_stmts, plain_para};
ghost use Rattle.cob_typed_exprs.specs.Search.{HasFewPlaces, found_and};
ghost use Rattle.cob_typed_exprs.specs.Paras.{para_in, HasParas};
ghost use Rattle.cob_typed.specs.StatementSteps.{typed_para, all_from};
ghost use Rattle.cob_typed.specs.Lists.{found_behind};
ghost use Rattle.cob_typed.specs.Statements.{typed_stmts};
ghost use Rattle.cob_typed.specs.Typing.{joined, typed_sentences, typed_paras, rule_number, clashes, scope_of, IsTyped, IsOutside};
ghost use Rattle.cob_typed.specs.Answer.{lines_in, AreTyped, IsAnswer, IsRefused, IsAccepted};

use crate::end::TypedEnd;
use crate::statements::add_stmts;
use cob_data::{Layout, Rule};
use cob_program::{Para, Program, Stmt};
use cob_tree::{Many, Name, Paragraph, Sentence, Tree};
use cob_typed_exprs::{Finding, Found, Names, Scope, demand};
use indexmap::{IndexMap, IndexSet};
use rule_order::noted;
use std::alloc::{AllocError, Global};

/// The rules on statements, in their order.
const TYPING_RULES: [Rule; 12] = [
    Rule::Q1,
    Rule::Q2,
    Rule::Q3,
    Rule::Q4,
    Rule::Q5,
    Rule::Q6,
    Rule::Q7,
    Rule::Q8,
    Rule::Q9,
    Rule::Q10,
    Rule::Q11,
    Rule::N5,
];

// ---- names of paragraphs

fn found_at(places: &IndexMap<&[u8], Found>, name: &[u8]) -> Found
    ensures { result ≡ para_in places.now name.now }
{
    match places.get(name) {
        None => Found::Nothing,
        Some(found) => *found,
    }
}

/// Notes one more paragraph of a name, counted from 1.
fn add_place<'a>(
    places: &mut IndexMap<&'a [u8], Found>,
    name: &'a [u8],
    place: u32,
) -> Result<(), AllocError>
    ensures { OnOk result ((text : List ℕ) → para_in places.new text ≡ (if bytes_eq text name.now then found_and (para_in places.old text) place else para_in places.old text)) }
{
    let found = found_at(places, name).and(place);
    places.insert(name, found)?;
    Ok(())
}

/// The paragraphs of each name. More paragraphs than numbers count as want of memory.
fn places_of(alloc: Global, paragraphs: &[Paragraph]) -> Result<IndexMap<&[u8], Found>, AllocError>
    ensures { IfOk result (λ places. HasParas places (map (λ p. p.name) paragraphs.now)) }
{
    let mut places = IndexMap::new(alloc);
    let mut place: u32 = 0;
    for paragraph in paragraphs {
        place = following(place)?;
        add_place(&mut places, paragraph.name.get(), place)?;
    }
    Ok(places)
}

fn following(place: u32) -> Result<u32, AllocError>
    ensures { IfOk result (λ next. next ≡ place + 1) }
{
    match place.checked_add(1) {
        None => Err(AllocError),
        Some(next) => Ok(next),
    }
}

/// Notes each paragraph that is named like one before.
fn add_clashes(
    alloc: Global,
    findings: &mut Vec<Finding>,
    paragraphs: &[Paragraph],
) -> Result<(), AllocError>
    ensures { OnOk result (findings.new.items ≡ found_behind findings.old.items (clashes [] (map plain_paragraph paragraphs.now))) }
{
    let mut known = IndexSet::new(alloc);
    for paragraph in paragraphs {
        let is_new = known.insert(paragraph.name.get())?;
        demand(findings, paragraph.line, Rule::Q11, is_new)?;
    }
    Ok(())
}

// ---- lists of statements

fn add_sentence(
    scope: &Scope,
    findings: &mut Vec<Finding>,
    next: &mut u32,
    sentence: &Sentence,
    typed: &mut Vec<Stmt>,
) -> Result<(), AllocError>
    ensures value { OnOk result (stmts_of (map plain_stmt typed.new.items) ≡ joined (stmts_of (map plain_stmt typed.old.items)) (typed_stmts scope.now next.old (plain_sentence sentence.now)).value) }
    ensures next { OnOk result (next.new ≡ (typed_stmts scope.now next.old (plain_sentence sentence.now)).next) }
    ensures found { OnOk result (findings.new.items ≡ found_behind findings.old.items (typed_stmts scope.now next.old (plain_sentence sentence.now)).found) }
{
    add_stmts(scope, findings, next, sentence.statements.get(), typed)?;
    Ok(())
}

fn typed_sentences(
    scope: &Scope,
    findings: &mut Vec<Finding>,
    next: &mut u32,
    sentences: &[Sentence],
) -> Result<Vec<Stmt>, AllocError>
    ensures value { IfOk result (λ typed. plain_stmts typed.items ≡ (typed_sentences scope.now next.old (map plain_sentence sentences.now)).value) }
    ensures next { OnOk result (next.new ≡ (typed_sentences scope.now next.old (map plain_sentence sentences.now)).next) }
    ensures found { OnOk result (findings.new.items ≡ found_behind findings.old.items (typed_sentences scope.now next.old (map plain_sentence sentences.now)).found) }
{
    let mut typed = Vec::new(scope.alloc);
    for sentence in sentences {
        add_sentence(scope, findings, next, sentence, &mut typed)?;
    }
    Ok(typed)
}

fn typed_para(
    scope: &Scope,
    findings: &mut Vec<Finding>,
    next: &mut u32,
    paragraph: &Paragraph,
) -> Result<Para, AllocError>
    ensures value { IfOk result (λ para. plain_para para ≡ (typed_para scope.now next.old (plain_paragraph paragraph.now)).value) }
    ensures next { OnOk result (next.new ≡ (typed_para scope.now next.old (plain_paragraph paragraph.now)).next) }
    ensures found { OnOk result (findings.new.items ≡ found_behind findings.old.items (typed_para scope.now next.old (plain_paragraph paragraph.now)).found) }
{
    let body = typed_sentences(scope, findings, next, paragraph.sentences.get())?;
    Ok(Para {
        name: Some(Name::of(scope.alloc, paragraph.name.get())?),
        line: paragraph.line,
        body: Many::of(body),
    })
}

fn add_paras(
    scope: &Scope,
    findings: &mut Vec<Finding>,
    next: &mut u32,
    paragraphs: &[Paragraph],
    paras: &mut Vec<Para>,
) -> Result<(), AllocError>
    ensures value { OnOk result (map plain_para paras.new.items ≡ map plain_para paras.old.items ++ (typed_paras scope.now next.old (map plain_paragraph paragraphs.now)).value) }
    ensures next { OnOk result (next.new ≡ (typed_paras scope.now next.old (map plain_paragraph paragraphs.now)).next) }
    ensures found { OnOk result (findings.new.items ≡ found_behind findings.old.items (typed_paras scope.now next.old (map plain_paragraph paragraphs.now)).found) }
{
    for paragraph in paragraphs {
        paras.push(typed_para(scope, findings, next, paragraph)?)?;
    }
    Ok(())
}

/// The unnamed paragraph, and the others.
fn all_paras(
    scope: &Scope,
    findings: &mut Vec<Finding>,
    next: &mut u32,
    tree: &Tree,
) -> Result<Vec<Para>, AllocError>
    ensures value { IfOk result (λ paras. map plain_para paras.items ≡ (all_from scope.now next.old (map plain_sentence tree.now.sentences) (map plain_paragraph tree.now.paragraphs)).value) }
    ensures next { OnOk result (next.new ≡ (all_from scope.now next.old (map plain_sentence tree.now.sentences) (map plain_paragraph tree.now.paragraphs)).next) }
    ensures found { OnOk result (findings.new.items ≡ found_behind findings.old.items (all_from scope.now next.old (map plain_sentence tree.now.sentences) (map plain_paragraph tree.now.paragraphs)).found) }
{
    let body = typed_sentences(scope, findings, next, tree.sentences.get())?;
    let mut paras = Vec::new(scope.alloc);
    paras.push(Para {
        name: None,
        line: 0,
        body: Many::of(body),
    })?;
    add_paras(scope, findings, next, tree.paragraphs.get(), &mut paras)?;
    Ok(paras)
}

// ---- the first broken rule

fn rule_number(rule: Rule) -> u8
    ensures { result ≡ rule_number rule }
{
    match rule {
        Rule::Q1 => 1,
        Rule::Q2 => 2,
        Rule::Q3 => 3,
        Rule::Q4 => 4,
        Rule::Q5 => 5,
        Rule::Q6 => 6,
        Rule::Q7 => 7,
        Rule::Q8 => 8,
        Rule::Q9 => 9,
        Rule::Q10 => 10,
        Rule::Q11 => 11,
        Rule::N5 => 12,
        Rule::L1 => 13,
        Rule::L2 => 14,
        Rule::L3 => 15,
        Rule::L4 => 16,
        Rule::L5 => 17,
        Rule::L6 => 18,
        Rule::L7 => 19,
        Rule::L8 => 20,
        Rule::L9 => 21,
        Rule::L10 => 22,
        Rule::L11 => 23,
        Rule::L12 => 24,
        Rule::N1 => 25,
        Rule::N2 => 26,
        Rule::N3 => 27,
        Rule::N4 => 28,
    }
}

/// The first line at which a rule is broken.
fn first_line(findings: &[Finding], rule: Rule) -> Option<u32>
    ensures { result ≡ least (lines_in findings.now rule) }
{
    let mut first = None;
    for finding in findings {
        let broken = rule_number(finding.rule) == rule_number(rule);
        first = noted(first, broken, finding.line);
    }
    first
}

fn first_among(findings: &[Finding], rules: &[Rule]) -> Option<(Rule, u32)>
    ensures { result ≡ first_broken (lines_in findings.now) rules.now }
{
    for rule in rules {
        match first_line(findings, *rule) {
            None => {}
            Some(line) => return Some((*rule, line)),
        }
    }
    None
}

// ---- whole programs

/// The paragraphs of a program, the number of its statements, and the rules that it breaks.
#[derive(Drop)]
pub struct Typed {
    pub paras: Vec<Para>,
    pub statements: u32,
    pub findings: Vec<Finding>,
}

fn typed_with(scope: &Scope, tree: &Tree) -> Result<Typed, AllocError>
    ensures { (l : Layout) → scope.now ≡ scope_of l (plain_tree tree.now) → IfOk result (λ typed. AreTyped l (plain_tree tree.now) typed) }
{
    let mut findings = Vec::new(scope.alloc);
    let mut next = 1;
    let paras = all_paras(scope, &mut findings, &mut next, tree)?;
    add_clashes(scope.alloc, &mut findings, tree.paragraphs.get())?;
    Ok(Typed {
        paras,
        statements: next.saturating_sub(1),
        findings,
    })
}

fn scope_in<'x>(
    alloc: Global,
    layout: &'x Layout,
    paragraphs: &'x [Paragraph],
) -> Result<Scope<'x>, AllocError>
    requires { HasFewPlaces layout.now }
    ensures { IfOk result (λ scope. scope ≡ record { layout = layout.now; paras = map (λ p. p.name) paragraphs.now }) }
{
    let names = or_leave!(Names::of(alloc, layout));
    let places = or_leave!(places_of(alloc, paragraphs), names);
    Ok(Scope::of(alloc, layout, names, paragraphs, places))
}

fn typed_in<'x>(alloc: Global, layout: &'x Layout, tree: &'x Tree) -> Result<Typed, AllocError>
    requires { HasFewPlaces layout.now }
    ensures { IfOk result (λ typed. AreTyped layout.now (plain_tree tree.now) typed) }
{
    let scope = or_leave!(scope_in(alloc, layout, tree.paragraphs.get()));
    typed_with(&scope, tree)
}

/// The program of what was typed, over a copy of the layout.
fn program_of(alloc: Global, layout: &Layout, typed: Typed) -> Result<Program, AllocError>
    ensures layout { IfOk result (λ program. program.layout ≡ layout.now) }
    ensures paras { IfOk result (λ program. program.paras ≡ typed.paras.items) }
    ensures statements { IfOk result (λ program. program.statements ≡ typed.statements) }
{
    Ok(Program {
        layout: layout.copied(alloc)?,
        paras: Many::of(typed.paras),
        statements: typed.statements,
    })
}

/// The program, where no rule is broken; else the first rule of the table that is, and its first line.
fn answer_of(alloc: Global, layout: &Layout, typed: Typed) -> Result<Program, TypedEnd>
    ensures answer { (t : tree_spec.Tree) → AreTyped layout.now t typed → IsAnswer layout.now t result }
    ensures outside { (t : tree_spec.Tree) → AreTyped layout.now t typed → (rule : Rule) (line : ℕ) → IsOutside layout.now t rule line → IsRefused result rule line }
    ensures accepted { (t : tree_spec.Tree) → AreTyped layout.now t typed → IsTyped layout.now t → IsAccepted result }
{
    match first_among(&typed.findings, &TYPING_RULES) {
        Some((rule, line)) => Err(TypedEnd::Outside { rule, line }),
        None => match program_of(alloc, layout, typed) {
            Err(_) => Err(TypedEnd::Memory),
            Ok(program) => Ok(program),
        },
    }
}

/// A tree as a program of the profile: its names resolved in its layout, its statements numbered from 1 in the order of
/// the source, its abbreviations written out. Or the first rule on statements, in the order of the table, that it breaks,
/// and the first line that breaks it (ISO 1989:1985, "Procedure division"). More statements or paragraphs than 32 bits
/// count as want of memory.
pub fn typed_of(alloc: Global, tree: &Tree, layout: &Layout) -> Result<Program, TypedEnd>
    requires { HasFewPlaces layout.now }
    ensures answer { IsAnswer layout.now (plain_tree tree.now) result }
    ensures outside { (rule : Rule) (line : ℕ) → IsOutside layout.now (plain_tree tree.now) rule line → IsRefused result rule line }
    ensures accepted { IsTyped layout.now (plain_tree tree.now) → IsAccepted result }
{
    match typed_in(alloc, layout, tree) {
        Err(_) => Err(TypedEnd::Memory),
        Ok(typed) => answer_of(alloc, layout, typed),
    }
}
