//! The nodes of a program and the edges that leave them, laid one behind another.
ghost use Rattle.std.specs.Prelude.{◌≡◌, ◌+◌, ◌∷◌, ◌++◌, [], suc, OnOk, IfOk};
ghost use Rattle.cob_program.specs.LogicView.{plain_logic, plain_test, plain_logics};
ghost use Rattle.cob_graph.specs.Nodes.{node, test_edges, logic_nodes, all_nodes, any_nodes};
ghost use Rattle.cob_graph.specs.Graphs.{edges_from, final_node};
ghost use Rattle.cob_graph_build.specs.Growing.{grown, copied_of};

use crate::counting::tests_in;
use crate::numbers::{exact, less, sum_of};
use crate::places::{first_of_all, first_of_any};
use crate::within::Within;
use cob_graph::{Edge, Node};
use cob_program::{Logic, Test};
use cob_runs::Action;
use cob_tree::Many;
use std::alloc::{AllocError, Global};
use std::marker::Model;

/// The nodes and edges that are laid so far.
#[derive(Drop)]
pub struct Laying {
    alloc: Global,
    nodes: Vec<Node>,
    edges: Vec<Edge>,
}

impl Model for Laying {
    ghost use Rattle.cob_graph_build.specs.Growing.{Seen};

    ghost Value = { Seen };

    ghost view = { λ l. record { nodes = l.nodes.items; edges = l.edges.items } };
}

/// Where a condition stands: how many simple conditions of the statement stand before it, its first number, and where
/// it goes on.
#[derive(Clone, Copy)]
pub struct Fork {
    pub k: u32,
    pub at: u32,
    pub yes: u32,
    pub no: u32,
}

fn number_of(place: usize) -> Result<u32, AllocError>
    ensures { IfOk result (λ n. n ≡ suc place) }
{
    match u32::try_from(place) {
        Err(_) => Err(AllocError),
        Ok(place) => sum_of(place, 1),
    }
}

fn add_edges(edges: &mut Vec<Edge>, from: u32, out: &[(Action, u32)]) -> Result<(), AllocError>
    ensures { OnOk result (edges.new.items ≡ edges.old.items ++ edges_from from out.now) }
{
    for (action, to) in out {
        edges.push(Edge {
            from,
            to: *to,
            action: *action,
        })?;
    }
    Ok(())
}

impl Laying {
    /// Nothing is laid yet.
    pub fn new(alloc: Global) -> Laying
        ensures { result ≡ record { nodes = []; edges = [] } }
    {
        Laying {
            alloc,
            nodes: Vec::new(alloc),
            edges: Vec::new(alloc),
        }
    }

    /// What is laid.
    pub fn parts(self) -> (Many<Node>, Many<Edge>)
        ensures nodes { result.0 ≡ self.nodes }
        ensures edges { result.1 ≡ self.edges }
    {
        (Many::of(self.nodes), Many::of(self.edges))
    }

    /// Where its memory comes from.
    pub fn allocator(&self) -> Global {
        self.alloc
    }

    // ---- single nodes

    /// One node, and the ways on.
    pub fn add(
        &mut self,
        within: &Within,
        statement: u32,
        starts: bool,
        out: &[(Action, u32)],
    ) -> Result<(), AllocError>
        ensures { OnOk result (self.new ≡ grown self.old (node (copied_of within.now) statement starts out.now ∷ [])) }
    {
        let from = number_of(self.nodes.len())?;
        let sites = Many::of(Vec::from_slice(self.alloc, within.sites)?);
        self.nodes.push(Node {
            statement,
            sites,
            starts,
        })?;
        add_edges(&mut self.edges, from, out)
    }

    /// The final node.
    pub fn add_final(&mut self) -> Result<(), AllocError>
        ensures { OnOk result (self.new ≡ grown self.old (final_node ∷ [])) }
    {
        self.nodes.push(Node {
            statement: 0,
            sites: Many::of(Vec::new(self.alloc)),
            starts: false,
        })?;
        Ok(())
    }

    // ---- conditions

    fn lay_test(
        &mut self,
        within: &Within,
        statement: u32,
        starts: bool,
        test: &Test,
        fork: Fork,
    ) -> Result<(), AllocError>
        ensures { OnOk result (self.new ≡ grown self.old
            (node (copied_of within.now) statement starts
            (test_edges (copied_of within.now) statement (plain_test test.now) fork.k fork.yes fork.no) ∷ [])) }
    {
        match test {
            Test::Always => self.add(within, statement, starts, &[(Action::Skip, fork.yes)]),
            Test::Number { .. } | Test::Text { .. } | Test::Member { .. } | Test::Numeric(_) => {
                self.add(
                    within,
                    statement,
                    starts,
                    &[
                        (Action::True(fork.k), fork.yes),
                        (Action::False(fork.k), fork.no),
                    ],
                )
            }
        }
    }

    /// The nodes of a condition.
    #[cycle(conditions)]
    pub fn lay_logic(
        &mut self,
        within: &Within,
        statement: u32,
        starts: bool,
        logic: &Logic,
        fork: Fork,
        left: u32,
    ) -> Result<(), AllocError>
        ensures { OnOk result (self.new ≡ grown self.old
            (logic_nodes (copied_of within.now) statement starts (plain_logic logic.now) fork.k fork.at fork.yes
            fork.no)) }
    {
        let left = less(left)?;
        match logic {
            Logic::All(parts) => self.lay_every(within, statement, starts, parts, fork, left),
            Logic::Any(parts) => self.lay_some(within, statement, starts, parts, fork, left),
            Logic::Not(part) => {
                let turned = Fork {
                    k: fork.k,
                    at: fork.at,
                    yes: fork.no,
                    no: fork.yes,
                };
                self.lay_logic(within, statement, starts, part, turned, left)
            }
            Logic::Test(test) => self.lay_test(within, statement, starts, test, fork),
        }
    }

    /// Those of conditions that are all to hold.
    #[cycle(conditions)]
    fn lay_every(
        &mut self,
        within: &Within,
        statement: u32,
        starts: bool,
        parts: &[Logic],
        fork: Fork,
        left: u32,
    ) -> Result<(), AllocError>
        ensures { OnOk result (self.new ≡ grown self.old
            (all_nodes (copied_of within.now) statement starts (plain_logics parts.now) fork.k fork.at fork.yes
            fork.no)) }
    {
        match parts {
            [] => Ok(()),
            [part, rest @ ..] => {
                let left = less(left)?;
                let behind = fork.behind(exact(tests_in(part))?)?;
                let yes = first_of_all(rest, behind.at, fork.yes, fork.no, left)?;
                self.lay_logic(within, statement, starts, part, fork.held_at(yes), left)?;
                self.lay_every(within, statement, false, rest, behind, left)
            }
        }
    }

    /// Those of conditions of which one is to hold.
    #[cycle(conditions)]
    pub fn lay_some(
        &mut self,
        within: &Within,
        statement: u32,
        starts: bool,
        parts: &[Logic],
        fork: Fork,
        left: u32,
    ) -> Result<(), AllocError>
        ensures { OnOk result (self.new ≡ grown self.old
            (any_nodes (copied_of within.now) statement starts (plain_logics parts.now) fork.k fork.at fork.yes
            fork.no)) }
    {
        match parts {
            [] => Ok(()),
            [part, rest @ ..] => {
                let left = less(left)?;
                let behind = fork.behind(exact(tests_in(part))?)?;
                let no = first_of_any(rest, behind.at, fork.yes, fork.no, left)?;
                self.lay_logic(within, statement, starts, part, fork.failed_at(no), left)?;
                self.lay_some(within, statement, false, rest, behind, left)
            }
        }
    }
}

impl Fork {
    /// Behind so many simple conditions.
    fn behind(self, tests: u32) -> Result<Fork, AllocError>
        ensures { IfOk result (λ f. f ≡ record {
          k = self.k + tests;
          at = self.at + tests;
          yes = self.yes;
          no = self.no;
        }) }
    {
        Ok(Fork {
            k: sum_of(self.k, tests)?,
            at: sum_of(self.at, tests)?,
            yes: self.yes,
            no: self.no,
        })
    }

    fn held_at(self, yes: u32) -> Fork
        ensures { result ≡ record { k = self.k; at = self.at; yes = yes; no = self.no } }
    {
        Fork {
            k: self.k,
            at: self.at,
            yes,
            no: self.no,
        }
    }

    fn failed_at(self, no: u32) -> Fork
        ensures { result ≡ record { k = self.k; at = self.at; yes = self.yes; no = no } }
    {
        Fork {
            k: self.k,
            at: self.at,
            yes: self.yes,
            no,
        }
    }
}
