//! A program's items and cells and its graph, in lines.
use crate::part_text::write_part;
use cob_data::Item;
use cob_graph::{Edge, Graph};
use cob_program::{Act, Program, Stmt};
use cob_runs::Cell;
use cob_tree::Form;
use edge_parts::{part_at, part_count};
use std::alloc::{AllocError, Global};
use std::io;

fn sign_word(signed: bool) -> &'static str {
    if signed { "signed" } else { "unsigned" }
}

// ---- items and cells

fn write_form(text: &mut String, form: &Form) -> Result<(), AllocError> {
    match form {
        Form::Group => text.push_str("group"),
        Form::Text { .. } => text.push_str("text"),
        Form::Number {
            digits,
            scale,
            signed,
            ..
        } => write!(text, "number {digits} {scale} {}", sign_word(*signed)),
        Form::Edited { digits, scale, .. } => write!(text, "edited {digits} {scale}"),
    }
}

fn item_line(alloc: Global, place: usize, item: &Item) -> Result<String, AllocError> {
    let mut line = format!(in alloc; "item {place} {} {} ", item.offset, item.length)?;
    write_form(&mut line, &item.form)?;
    Ok(line)
}

// Counters stand in the order of their statements.
fn cell_line(alloc: Global, cell: &Cell) -> Result<String, AllocError> {
    let sign = sign_word(cell.signed);
    match cell.item {
        Some(place) => format!(in alloc; "cell i{place} {} {} {sign}", cell.digits, cell.scale),
        None => format!(in alloc; "cell count {} {} {sign}", cell.digits, cell.scale),
    }
}

// ---- edges

// The statement with a number. The last node has none.
fn statement_with<'a>(statements: &[&'a Stmt], number: u32) -> Option<&'a Stmt> {
    for statement in statements {
        if statement.number == number {
            return Some(statement);
        }
    }
    None
}

fn statement_of<'a>(graph: &Graph, statements: &[&'a Stmt], edge: Edge) -> Option<&'a Stmt> {
    let node = graph.nodes.get().get((edge.from as usize).checked_sub(1)?)?;
    statement_with(statements, node.statement)
}

fn phrase_word(act: &Act) -> &'static str {
    match act {
        Act::Arith { size: Some(_), .. } => "phrase",
        _ => "plain",
    }
}

fn show_parts(rt: &HostRuntime, program: &Program, statement: &Stmt, edge: Edge) -> io::Result<()> {
    for k in 0..part_count(program, statement, edge.action) {
        if let Some(part) = part_at(program, statement, edge.action, k) {
            let mut line = String::from_str(rt.alloc(), "part ")?;
            write_part(&mut line, part)?;
            println!(rt; "{line}")?;
        }
    }
    Ok(())
}

fn show_edge(rt: &HostRuntime, program: &Program, statement: &Stmt, edge: Edge) -> io::Result<()> {
    let phrase = phrase_word(&statement.act);
    println!(rt;
        "edge {} {} {:?} {} {phrase}",
        edge.from, edge.to, edge.action, statement.number
    )?;
    show_parts(rt, program, statement, edge)
}

fn show_edges(
    rt: &HostRuntime,
    program: &Program,
    graph: &Graph,
    statements: &[&Stmt],
) -> io::Result<()> {
    for edge in graph.edges.get() {
        if let Some(statement) = statement_of(graph, statements, *edge) {
            show_edge(rt, program, statement, *edge)?;
        }
    }
    Ok(())
}

// ---- all

fn show_data(rt: &HostRuntime, program: &Program, graph: &Graph) -> io::Result<()> {
    for (place, item) in program.layout.items.get().iter().enumerate() {
        println!(rt; "{}", item_line(rt.alloc(), place, item)?)?;
    }
    for cell in graph.cells.get() {
        println!(rt; "{}", cell_line(rt.alloc(), cell)?)?;
    }
    Ok(())
}

/// Shows items, cells, how many nodes there are, and edges, each with its parts behind it.
pub fn show_graph(rt: &HostRuntime, program: &Program, graph: &Graph) -> io::Result<()> {
    let statements = program.statements(rt.alloc())?;
    show_data(rt, program, graph)?;
    println!(rt; "nodes {}", graph.nodes.get().len())?;
    show_edges(rt, program, graph, statements.as_slice())?;
    println!(rt; "end")
}
