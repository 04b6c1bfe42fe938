// Graphs of chunks. Each case tells whether its line could be read.

mod program;
mod specs;

use crate::chunks::program::program_with;
use crate::chunks::specs::specs_of;
use crate::page::Page;
use crate::text::{number, numbers_of, split_word};
use cc_chunks::ChunkGraph;
use std::alloc::{AllocError, Global};
use std::fmt::Debug;

/// The graphs that were made, of which the last is asked.
pub type Graphs = Vec<ChunkGraph>;

pub fn answer(alloc: Global, graphs: &mut Graphs, line: &str, page: &mut Page) -> bool {
    let (word, rest) = split_word(line);
    match word {
        "of" => graph_of(alloc, graphs, rest, page),
        "again" => again(alloc, graphs, page),
        "depends" => depends(graphs, rest, page),
        "deepest" => deepest(alloc, graphs, rest, page),
        _ => false,
    }
}

/// `FILES SPEC ..`: the graph of the specs, or their first fault.
fn graph_of(alloc: Global, graphs: &mut Graphs, text: &str, page: &mut Page) -> bool {
    let (files, text) = split_word(text);
    let Some(files) = number(files) else {
        return false;
    };
    let Some(specs) = specs_of(alloc, text) else {
        return false;
    };
    if specs.len() > 4096 {
        return false;
    }
    match ChunkGraph::of(alloc, specs.as_slice(), files) {
        Ok(graph) => keep(graphs, graph, page),
        Err(fault) => {
            add_line(&fault, page);
            true
        }
    }
}

fn add_line<T: Debug>(value: &T, page: &mut Page) {
    page.add("  ");
    page.add_value(value);
    page.add("\n");
}

/// Shows a graph, and keeps it for the questions behind it.
fn keep(graphs: &mut Graphs, graph: ChunkGraph, page: &mut Page) -> bool {
    add_graph(&graph, page);
    graphs.push(graph).is_ok()
}

fn add_graph(graph: &ChunkGraph, page: &mut Page) {
    page.add("  chunks ");
    page.add_number(graph.chunks().len() as u64);
    page.add(", counts ");
    page.add_value(&graph.counts());
    page.add("\n");
}

/// `A B`: whether the one chunk depends on the other.
fn depends(graphs: &Graphs, text: &str, page: &mut Page) -> bool {
    let (a, b) = split_word(text);
    let (Some(a), Some(b)) = (number(a), number(b)) else {
        return false;
    };
    let Some(graph) = graphs.last() else {
        return false;
    };
    add_line(&graph.depends(a, b), page);
    true
}

/// `A B ..`: the deepest chunk that several have in common.
fn deepest(alloc: Global, graphs: &Graphs, text: &str, page: &mut Page) -> bool {
    let Some(graph) = graphs.last() else {
        return false;
    };
    let Some(list) = numbers_of(alloc, text) else {
        return false;
    };
    add_deepest(graph, list.as_slice(), page)
}

fn add_deepest(graph: &ChunkGraph, list: &[u32], page: &mut Page) -> bool {
    let count = graph.chunks().len();
    if list.is_empty() || !list.iter().all(|chunk| (*chunk as usize) < count) {
        return false;
    }
    add_line(&graph.deepest_common(list), page);
    true
}

/// The graph of a program with the chunks of another graph.
fn graph_again(alloc: Global, graph: &ChunkGraph) -> Result<ChunkGraph, AllocError> {
    let program = program_with(alloc, graph.chunks())?;
    ChunkGraph::from_program(alloc, &program)
}

/// Asks for the graph of a program that has the chunks of the last graph.
fn again(alloc: Global, graphs: &mut Graphs, page: &mut Page) -> bool {
    let Some(graph) = graphs.last() else {
        return false;
    };
    match graph_again(alloc, graph) {
        Ok(graph) => keep(graphs, graph, page),
        Err(_) => false,
    }
}
