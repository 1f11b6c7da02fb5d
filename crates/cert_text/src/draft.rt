//! A certificate while its lines are read.
ghost use Rattle.std.specs.Prelude.{◌≡◌, ◌++◌, ◌+◌, ◌-◌, ◌<◌, ◌≤◌, map, length, get_or, []};
ghost use Rattle.std.specs.Prelude.{IfOk, OnOk, IfSome, if◌then◌else◌};
ghost use Rattle.cert_text.specs.Reading.{Reads, ◌▷◌};
ghost use Rattle.cert_text.specs.Allowed.{key_of, no_key, is_before, places_fit, claim_fits, bound_fits};
ghost use Rattle.cert_text.specs.Draft.{is_at, small_natural, small_integer, one_number, next_cell, cells_among, pack_among, claim_among, bound_among};
ghost use Rattle.cert_text.specs.Draft.{Parts, Stepped, parts_of, nothing_read, closed, is_next, title_read, cells_read, nodes_read, packs_read, pack_read, never_read, node_read, claim_read, bound_read, end_read, step, one_step, node_closed, line_read};
ghost use Rattle.cert_text.specs.View.{view};

use crate::cert::{Bound, Claim, Element};
use crate::number::numbers_at;
use crate::word::{Word, word_at};
use dec_num::SIZE_LIMIT;
use diff_bounds::Pack;
use std::alloc::{AllocError, Global};
use std::mem;

/// Which line comes next: one of the first four, one of the body, or none.
#[derive(Clone, Copy)]
pub enum Stage {
    Title,
    Cells,
    Nodes,
    Packs,
    Body,
    Ended,
}

impl Stage {
    pub fn is_at(self, other: Stage) -> bool
        ensures { result ≡ is_at self other }
    {
        self as u8 == other as u8
    }
}

/// Where a bound stands among those of its node.
#[derive(Clone, Copy)]
pub struct Key {
    pub pack: u32,
    pub row: u32,
    pub column: u32,
}

const NO_KEY: Key = Key {
    pack: 0,
    row: 0,
    column: 0,
};

/// What the lines so far make.
#[derive(Drop)]
pub struct Draft {
    pub stage: Stage,
    pub cells: u32,
    pub node_count: u32,
    pub pack_count: u32,
    pub packs: Vec<Pack>,
    pub nodes: Vec<Element>,
    pub open_node: bool,
    pub claims: Vec<Claim>,
    pub bounds: Vec<Bound>,
    pub cell: u32,
    pub key: Key,
}

// ---- the numbers of a line

fn small_natural(number: i128) -> Option<u32>
    ensures { Reads (λ n. n) result (small_natural number) }
{
    u32::try_from(number).ok()
}

fn small_integer(number: i128) -> Option<i64>
    ensures { Reads (λ n. n) result (small_integer number) }
{
    if number.unsigned_abs() < 1_000_000_000_000_000_000 {
        Some(number as i64)
    } else {
        None
    }
}

fn one_number(numbers: &[i128]) -> Option<u32>
    ensures { Reads (λ n. n) result (one_number numbers.now) }
{
    match numbers {
        [number] => small_natural(*number),
        _ => None,
    }
}

fn claim_among(numbers: &[i128]) -> Option<Claim>
    ensures { Reads (λ c. c) result (claim_among numbers.now) }
{
    match numbers {
        [cell, low, high] => {
            let cell = small_natural(*cell)?;
            let low = small_integer(*low)?;
            let high = small_integer(*high)?;
            Some(Claim { cell, low, high })
        }
        _ => None,
    }
}

fn bound_among(numbers: &[i128]) -> Option<Bound>
    ensures { Reads (λ b. b) result (bound_among numbers.now) }
{
    match numbers {
        [pack, row, column, most] => {
            let pack = small_natural(*pack)?;
            let row = small_natural(*row)?;
            let column = small_natural(*column)?;
            Some(Bound {
                pack,
                row,
                column,
                most: *most,
            })
        }
        _ => None,
    }
}

// The cell of a pack that a number tells behind the last one, where it is one.
fn next_cell(cells: u32, last: u32, number: &i128) -> Option<u32>
    ensures { Reads (λ n. n) result (next_cell cells last number.now) }
{
    match small_natural(*number) {
        None => None,
        Some(cell) => {
            if last < cell && cell <= cells {
                Some(cell)
            } else {
                None
            }
        }
    }
}

// Adds the cells of a pack, and answers whether they rise up to the number of cells.
fn push_cells(cells: u32, numbers: &[i128], pack: &mut Vec<u32>) -> Result<bool, AllocError>
    ensures { IfOk result (λ whole. cells_among cells 0 numbers.now ▷ (λ cs. Some (pack.old.items ++ cs)) ≡ (if whole then Some pack.new.items else None)) }
{
    let mut last = 0;
    for number in numbers {
        match next_cell(cells, last, number) {
            None => return Ok(false),
            Some(cell) => {
                pack.push(cell)?;
                last = cell;
            }
        }
    }
    Ok(true)
}

fn pack_among(alloc: Global, cells: u32, numbers: &[i128]) -> Result<Option<Pack>, AllocError>
    ensures { IfOk result (λ pack. Reads (λ p. p.cells.items) pack (pack_among cells numbers.now)) }
{
    if numbers.len() < 2 || numbers.len() > 8 {
        return Ok(None);
    }
    let mut pack = Vec::with_capacity(alloc, numbers.len())?;
    if push_cells(cells, numbers, &mut pack)? {
        Ok(Some(Pack { cells: pack }))
    } else {
        Ok(None)
    }
}

// Whether the bound stands after the key.
fn is_before(key: &Key, bound: &Bound) -> bool
    ensures { result ≡ is_before key.now (key_of bound.now) }
{
    key.pack < bound.pack
        || (key.pack == bound.pack
            && (key.row < bound.row || (key.row == bound.row && key.column < bound.column)))
}

fn claim_fits(cells: u32, last: u32, claim: &Claim) -> bool
    ensures { result ≡ claim_fits cells last claim.now }
{
    last < claim.cell
        && claim.cell <= cells
        && claim.low <= claim.high
        && claim.low.unsigned_abs() < 1_000_000_000_000_000_000
        && claim.high.unsigned_abs() < 1_000_000_000_000_000_000
}

fn places_fit(size: usize, bound: &Bound) -> bool
    ensures { result ≡ places_fit size (key_of bound.now) }
{
    bound.row as usize <= size && bound.column as usize <= size && bound.row != bound.column
}

fn bound_fits(packs: &[Pack], last: &Key, bound: &Bound) -> bool
    ensures { result ≡ bound_fits (map (λ p. p.cells.items) packs.now) last.now bound.now }
{
    if !is_before(last, bound) || bound.pack < 1 {
        return false;
    }
    match packs.get(bound.pack as usize - 1) {
        Some(pack) => {
            places_fit(pack.cells.len(), bound) && bound.most.unsigned_abs() <= SIZE_LIMIT
        }
        None => false,
    }
}

// ---- one more line

impl Draft {
    pub fn new(alloc: Global) -> Self
        ensures { parts_of result ≡ nothing_read }
    {
        Draft {
            stage: Stage::Title,
            cells: 0,
            node_count: 0,
            pack_count: 0,
            packs: Vec::new(alloc),
            nodes: Vec::new(alloc),
            open_node: false,
            claims: Vec::new(alloc),
            bounds: Vec::new(alloc),
            cell: 0,
            key: NO_KEY,
        }
    }

    fn read_title(&mut self, number: u32) -> bool
        ensures { Stepped result (parts_of self.new) (title_read (parts_of self.old) number) }
    {
        let fits = self.stage.is_at(Stage::Title) && number == 1;
        if fits {
            self.stage = Stage::Cells;
        }
        fits
    }

    fn read_cells(&mut self, number: u32) -> bool
        ensures { Stepped result (parts_of self.new) (cells_read (parts_of self.old) number) }
    {
        let fits = self.stage.is_at(Stage::Cells);
        if fits {
            self.stage = Stage::Nodes;
            self.cells = number;
        }
        fits
    }

    fn read_nodes(&mut self, number: u32) -> bool
        ensures { Stepped result (parts_of self.new) (nodes_read (parts_of self.old) number) }
    {
        let fits = self.stage.is_at(Stage::Nodes);
        if fits {
            self.stage = Stage::Packs;
            self.node_count = number;
        }
        fits
    }

    fn read_packs(&mut self, number: u32) -> bool
        ensures { Stepped result (parts_of self.new) (packs_read (parts_of self.old) number) }
    {
        let fits = self.stage.is_at(Stage::Packs)
            && number <= 32
            && (number == 0 || self.cells >= 2);
        if fits {
            self.stage = Stage::Body;
            self.pack_count = number;
        }
        fits
    }

    fn read_claim(&mut self, claim: Claim) -> Result<bool, AllocError>
        ensures { IfOk result (λ fits. Stepped fits (parts_of self.new) (claim_read (parts_of self.old) claim)) }
    {
        let fits = self.stage.is_at(Stage::Body)
            && self.open_node
            && self.bounds.is_empty()
            && claim_fits(self.cells, self.cell, &claim);
        if fits {
            self.claims.push(claim)?;
            self.cell = claim.cell;
        }
        Ok(fits)
    }

    fn read_bound(&mut self, bound: Bound) -> Result<bool, AllocError>
        ensures { IfOk result (λ fits. Stepped fits (parts_of self.new) (bound_read (parts_of self.old) bound)) }
    {
        let fits = self.stage.is_at(Stage::Body)
            && self.open_node
            && bound_fits(self.packs.as_slice(), &self.key, &bound);
        if fits {
            self.bounds.push(bound)?;
            self.key = Key {
                pack: bound.pack,
                row: bound.row,
                column: bound.column,
            };
        }
        Ok(fits)
    }

    fn read_pack(&mut self, alloc: Global, numbers: &[i128]) -> Result<bool, AllocError>
        ensures { IfOk result (λ fits. Stepped fits (parts_of self.new) (pack_read (parts_of self.old) numbers.now)) }
    {
        if !self.stage.is_at(Stage::Body) || self.packs.len() >= self.pack_count as usize {
            return Ok(false);
        }
        match pack_among(alloc, self.cells, numbers)? {
            Some(pack) => {
                self.packs.push(pack)?;
                Ok(true)
            }
            None => Ok(false),
        }
    }

    // How many nodes there are, the open one among them.
    fn closed_len(&self) -> usize
        ensures { result ≡ length (closed (parts_of self.now)) }
    {
        if self.open_node {
            self.nodes.len() + 1
        } else {
            self.nodes.len()
        }
    }

    fn is_next(&self, number: u32) -> bool
        ensures { result ≡ is_next (parts_of self.now) number }
    {
        let count = self.closed_len();
        self.stage.is_at(Stage::Body)
            && self.packs.len() == self.pack_count as usize
            && count < self.node_count as usize
            && number as usize == count + 1
    }

    fn close_node(&mut self, alloc: Global) -> Result<(), AllocError>
        ensures { OnOk result (parts_of self.new ≡ node_closed (parts_of self.old)) }
    {
        let cells = mem::replace(&mut self.claims, Vec::new(alloc));
        let bounds = mem::replace(&mut self.bounds, Vec::new(alloc));
        if self.open_node {
            self.nodes.push(Element::At { cells, bounds })?;
            self.open_node = false;
        }
        Ok(())
    }

    fn read_never(&mut self, alloc: Global, number: u32) -> Result<bool, AllocError>
        ensures { IfOk result (λ fits. Stepped fits (parts_of self.new) (never_read (parts_of self.old) number)) }
    {
        if !self.is_next(number) {
            return Ok(false);
        }
        self.close_node(alloc)?;
        self.nodes.push(Element::Unreached)?;
        Ok(true)
    }

    fn read_node(&mut self, alloc: Global, number: u32) -> Result<bool, AllocError>
        ensures { IfOk result (λ fits. Stepped fits (parts_of self.new) (node_read (parts_of self.old) number)) }
    {
        if !self.is_next(number) {
            return Ok(false);
        }
        self.close_node(alloc)?;
        self.open_node = true;
        self.cell = 0;
        self.key = NO_KEY;
        Ok(true)
    }

    fn read_end(&mut self, alloc: Global, numbers: &[i128]) -> Result<bool, AllocError>
        ensures { IfOk result (λ fits. Stepped fits (parts_of self.new) (end_read (parts_of self.old) numbers.now)) }
    {
        let fits = self.stage.is_at(Stage::Body)
            && self.packs.len() == self.pack_count as usize
            && self.closed_len() == self.node_count as usize
            && numbers.is_empty();
        if fits {
            self.close_node(alloc)?;
            self.stage = Stage::Ended;
        }
        Ok(fits)
    }

    fn accept(&mut self, alloc: Global, word: Word, numbers: &[i128]) -> Result<bool, AllocError>
        ensures { IfOk result (λ fits. Stepped fits (parts_of self.new) (step (parts_of self.old) word numbers.now)) }
    {
        match word {
            Word::Pack => self.read_pack(alloc, numbers),
            Word::Claim => match claim_among(numbers) {
                Some(claim) => self.read_claim(claim),
                None => Ok(false),
            },
            Word::Bound => match bound_among(numbers) {
                Some(bound) => self.read_bound(bound),
                None => Ok(false),
            },
            Word::End => self.read_end(alloc, numbers),
            _ => match one_number(numbers) {
                Some(number) => self.accept_one(alloc, word, number),
                None => Ok(false),
            },
        }
    }

    // The words that one number follows.
    fn accept_one(&mut self, alloc: Global, word: Word, number: u32) -> Result<bool, AllocError>
        ensures { IfOk result (λ fits. Stepped fits (parts_of self.new) (one_step (parts_of self.old) word number)) }
    {
        match word {
            Word::Title => Ok(self.read_title(number)),
            Word::Cells => Ok(self.read_cells(number)),
            Word::Nodes => Ok(self.read_nodes(number)),
            Word::Packs => Ok(self.read_packs(number)),
            Word::Never => self.read_never(alloc, number),
            Word::Node => self.read_node(alloc, number),
            _ => Ok(false),
        }
    }

    /// Reads one more line, and answers whether a certificate's text goes on with it.
    #[tactic(auto, unfolding(crate::specs::Draft::line_read))]
    pub fn read_line(
        &mut self,
        alloc: Global,
        line: &[u8],
        numbers: &mut Vec<i128>,
    ) -> Result<bool, AllocError>
        ensures { IfOk result (λ fits. Stepped fits (parts_of self.new) (line_read (parts_of self.old) line.now)) }
    {
        match word_at(line) {
            Some((word, rest)) => {
                if !numbers_at(rest, numbers)? {
                    return Ok(false);
                }
                self.accept(alloc, word, numbers.as_slice())
            }
            None => Ok(false),
        }
    }
}
