// Runs the statements on standard input through the compiled `execution::does`, and compares the answer, all cells and all lent entity cells with
// those given.
// tools/statement_vectors.py writes the lines, of a letter and two hexadecimal numbers, and says what they mean.
#![tactic(auto)]

use definition::refusal::Refusal;
use definition::{HEADER_LENGTH, Handover, MOST_CELLS};
use execution::Executed;
use functions::{fetch, header};
use std::alloc::{AllocError, Global};
use std::io;
use std::io::{BufReader, BufWriter, Read, Write};
use vectors::{Counts, MOST_LINES, number, put};

// The longest file of the cases has 131,945 bytes.
const BYTES: usize = 140_000;

// The most entity cells that a case lends.
const ENTITY_CELLS: usize = 65_540;

// A line with its end, which isn't looked at.
const RECORD: usize = 20;

// What a statement answers: what it does, or the number of its refusal.
type Answer = Result<Executed, u8>;

#[derive(Clone, Copy)]
enum Line {
    // So many bytes of the file are lent, all zeros.
    File(usize),
    // Four bytes of the file, the lowest first.
    Word(usize, u32),
    // So many entities, and so many lent entity cells.
    Entities(usize, usize),
    Cell(usize, u32),
    EntityCell(usize, u32),
    // What a cell is to hold after the statement.
    Wanted(usize, u32),
    WantedOfEntities(usize, u32),
    // The statement at position 0 is to answer so; nothing that a statement can answer, where there is none.
    Run(Option<Answer>),
}

// An answer by its kind and number, as the line has them: each kind makes something else of the number.
fn answer(kind: u32, n: u32) -> Option<Answer> {
    match kind {
        0 => Some(Ok(Executed::Next(fetch::signed((n % 65536) as u16)))),
        1 => Some(Ok(Executed::Calls(n as usize))),
        2 => Some(Ok(Executed::Returns(n as usize))),
        3 => u8::try_from(n).ok().map(Err),
        4 => Some(Ok(Executed::HandedOver(Handover::Builtin(n)))),
        5 => Some(Ok(Executed::HandedOver(Handover::Opcode(n)))),
        _ => None,
    }
}

impl Line {
    // By its letter; any other than those known runs the case.
    fn of(record: &[u8; RECORD]) -> Line {
        let x = number(record, 2, 8);
        let y = number(record, 11, 8);
        let place = x as usize;
        match record[0] {
            b'f' => Line::File(place),
            b'b' => Line::Word(place, y),
            b'n' => Line::Entities(place, y as usize),
            b'c' => Line::Cell(place, y),
            b'e' => Line::EntityCell(place, y),
            b'w' => Line::Wanted(place, y),
            b'x' => Line::WantedOfEntities(place, y),
            _ => Line::Run(answer(x, y)),
        }
    }
}

// Cells of which some are lent, and what these are to hold after the statement.
#[derive(Drop)]
struct Cells {
    given: Vec<u32>,
    wanted: Vec<u32>,
}

fn clear_first(cells: &mut [u32], count: usize) {
    if let Some(lent) = cells.get_mut(..count) {
        lent.fill(0);
    }
}

impl Cells {
    // So many of them, all zeros.
    fn new(alloc: Global, count: usize) -> Result<Cells, AllocError> {
        Ok(Cells {
            given: vec![in alloc; 0; count]?,
            wanted: vec![in alloc; 0; count]?,
        })
    }

    fn give(&mut self, i: usize, value: u32) {
        put(&mut self.given, i, value);
        self.want(i, value);
    }

    fn want(&mut self, i: usize, value: u32) {
        put(&mut self.wanted, i, value);
    }

    // Whether the first `count` are as wanted.
    fn agree(&self, count: usize) -> bool {
        let given = self.given.as_slice().get(..count);
        given.is_some() && given == self.wanted.as_slice().get(..count)
    }

    // The first `count` are zeros again.
    fn clear(&mut self, count: usize) {
        clear_first(&mut self.given, count);
        clear_first(&mut self.wanted, count);
    }
}

// What the lines have given of a case. All of the file and of the cells is there from the first; a line says how much of the file and of the entity cells is
// lent, before or after it says what is in them.
#[derive(Drop)]
struct Case {
    file: Vec<u8>,
    length: usize,
    cells: Cells,
    // How many entities there are, their cells, and how many of these are lent.
    number: usize,
    entities: Cells,
    lent: usize,
}

// What the statement at position 0 does: refused 13 where the lumps don't lie in the file, or the cells are too few or the file's too many, or so many
// entities of the file's size have no room.
fn executed(
    file: &[u8],
    number: usize,
    cells: &mut [u32],
    entities: &mut [u32],
) -> Result<Executed, Refusal> {
    if file.len() < HEADER_LENGTH {
        return Err(Refusal::State);
    }
    let recorded = header::file_of(file);
    let fits = header::lumps_fit(recorded)
        & header::cells_fit(0, recorded)
        & header::entity_fits(recorded);
    if !fits || cells.len() < recorded.globals.count {
        return Err(Refusal::State);
    }
    if !header::entities_fit(number, recorded.entityfields, entities.len()) {
        return Err(Refusal::State);
    }
    execution::does(file, recorded, number, cells, entities, 0)
}

impl Case {
    fn new(alloc: Global) -> Result<Case, AllocError> {
        Ok(Case {
            file: vec![in alloc; 0; BYTES]?,
            length: 0,
            cells: Cells::new(alloc, MOST_CELLS)?,
            number: 0,
            entities: Cells::new(alloc, ENTITY_CELLS)?,
            lent: 0,
        })
    }

    fn put_word(&mut self, place: usize, word: u32) {
        let bytes = word.to_le_bytes();
        if let Some(file) = self.file.as_mut_slice().get_mut(place..) {
            for (byte, b) in file.iter_mut().zip(&bytes) {
                *byte = *b;
            }
        }
    }

    // Whether the statement at position 0 does what is wanted. All that was lent is zeros afterwards, but the file. Where more is to be lent than there is,
    // nothing is run, and all stays.
    fn run(&mut self, wanted: Option<Answer>) -> bool {
        if self.file.len() < self.length || self.entities.given.len() < self.lent {
            return false;
        }
        let answer = executed(
            &self.file[..self.length],
            self.number,
            &mut self.cells.given,
            &mut self.entities.given[..self.lent],
        );
        let same = Some(answer.map_err(Refusal::number)) == wanted
            && self.cells.agree(MOST_CELLS)
            && self.entities.agree(self.lent);
        self.cells.clear(MOST_CELLS);
        self.entities.clear(self.lent);
        same
    }

    // What a line says is done. If that is to run the case, the result is whether all came out as wanted, and there are no entities afterwards.
    fn take(&mut self, line: Line) -> Option<bool> {
        match line {
            Line::File(length) => {
                self.file.fill(0);
                self.length = length;
            }
            Line::Word(place, word) => self.put_word(place, word),
            Line::Entities(number, lent) => {
                self.number = number;
                self.lent = lent;
            }
            Line::Cell(i, value) => self.cells.give(i, value),
            Line::EntityCell(i, value) => self.entities.give(i, value),
            Line::Wanted(i, value) => self.cells.want(i, value),
            Line::WantedOfEntities(i, value) => self.entities.want(i, value),
            Line::Run(wanted) => {
                let same = self.run(wanted);
                self.number = 0;
                self.lent = 0;
                return Some(same);
            }
        }
        None
    }
}

// A last line that isn't whole is none.
fn run_lines<R: Read, W: Write>(alloc: Global, input: &mut R, out: &mut W) -> io::Result<Counts> {
    let mut counts = Counts::default();
    let mut case = Case::new(alloc)?;
    let mut record = [0u8; RECORD];
    for _ in 0..MOST_LINES {
        if streams::read_full(input, &mut record)? < RECORD {
            break;
        }
        if let Some(same) = case.take(Line::of(&record)) {
            counts.count(same);
            if !same {
                writeln!(out, "case {} differs", counts.cases)?;
            }
        }
    }
    Ok(counts)
}

fn main(rt: HostRuntime) -> io::Result<()> {
    let mut input = BufReader::new(rt.alloc(), rt.stdin())?;
    let mut out = BufWriter::new(rt.alloc(), rt.stdout())?;
    let counts = run_lines(rt.alloc(), &mut input, &mut out)?;
    writeln!(out, "{counts}")?;
    out.flush()
}
