// Receives code tables and draws symbols, case by case from standard input, and writes a line for each operation. README.md has the format.
#![tactic(auto)]

ghost use Rattle.std.specs.Prelude.{◌≡◌, ◌<◌, ◌≤◌, IfOk, true, length};
ghost use Rattle.crn_format.specs.Limits.{max_symbols, too_long};
ghost use Rattle.crn_format.specs.Codes.{all_fit};
ghost use Rattle.crn_symbol_codec.specs.Cursors.{Holds};
ghost use Rattle.crn_symbol_codec.specs.Taking.{On};
ghost use Rattle.crn_symbol_codec.specs.Decoders.{SomeCode};

use crn_format::{Fault, Refusal, Table};
use crn_symbol_codec::{Cursor, Taken};
use std::fmt;
use std::io::{self, ErrorKind, Read};
use std::marker::Model;

// So many bytes of the input are read at most.
const MOST: usize = 65536;

// ---- what the operations are, and what they come to

// An operation of a case, as its five bytes say it: the kind and the argument.
#[derive(Clone, Copy)]
enum Operation {
    Number { bits: u32 },
    Table,
    Draws { count: u32 },
}

impl From<&[u8]> for Operation {
    fn from(bytes: &[u8]) -> Operation {
        let argument = crn_utils::little32(bytes, 1);
        match crn_utils::byte(bytes, 0) {
            1 => Operation::Number { bits: argument },
            2 => Operation::Table,
            _ => Operation::Draws { count: argument },
        }
    }
}

// Symbols drawn: the place after them, how many, and their hash.
#[derive(Clone, Copy)]
struct Drawn {
    place: usize,
    count: u32,
    hash: u64,
}

// What an operation came to.
#[derive(Clone, Copy)]
enum Done {
    Number { place: usize, value: u32 },
    Table { place: usize, count: u32, hash: u64 },
    Draws(Drawn),
}

// Why an operation was refused, which ends its case.
#[derive(Clone, Copy)]
enum Refused {
    TooManyBits,
    Number { refusal: Refusal, place: usize },
    Table(Fault),
    Draws { refusal: Refusal, drawn: Drawn },
}

impl fmt::Display for Drawn {
    fn fmt<W: fmt::Write>(&self, f: &mut fmt::Formatter<W>) -> fmt::Result {
        let Drawn { place, count, hash } = *self;
        write!(f, "{place} {count} {hash:016x}")
    }
}

impl fmt::Display for Done {
    fn fmt<W: fmt::Write>(&self, f: &mut fmt::Formatter<W>) -> fmt::Result {
        match *self {
            Done::Number { place, value } => write!(f, "number 0 {place} {value}"),
            Done::Table { place, count, hash } => write!(f, "table 0 {place} {count} {hash:016x}"),
            Done::Draws(drawn) => write!(f, "draws 0 {drawn}"),
        }
    }
}

impl fmt::Display for Refused {
    fn fmt<W: fmt::Write>(&self, f: &mut fmt::Formatter<W>) -> fmt::Result {
        match *self {
            Refused::TooManyBits => write!(f, "number of more than 16 bits"),
            Refused::Number { refusal, place } => write!(
                f,
                "number {} {place}",
                u32::from(refusal)
            ),
            Refused::Table(Fault { refusal, at }) => write!(f, "table {} {at}", u32::from(refusal)),
            Refused::Draws { refusal, drawn } => write!(f, "draws {} {drawn}", u32::from(refusal)),
        }
    }
}

// The FNV-1a hash `hash` with these bytes more.
fn hashed(hash: u64, bytes: &[u8]) -> u64 {
    bytes
        .iter()
        .fold(hash, |h, byte| fnv::step(h, u32::from(*byte)))
}

// ---- the operations

// A case under way: the place in its segment, and the last table received. No contract asks what they are, only that they fit each other.
#[derive(Drop)]
struct Progress<'a> {
    segment: &'a [u8],
    cursor: Cursor,
    table: Table,
}

impl<'a> Model for Progress<'a> {
    ghost Value = { Unit {0} };

    ghost view = { λ _. tt };

    ghost invariant = { λ p. (Holds p.segment.now p.cursor) × (length p.segment.now < too_long) × (p.table.count ≤ max_symbols) };
}

impl<'a> Progress<'a> {
    // At the segment's first bit, with a table of no symbols.
    fn new(segment: &'a [u8]) -> Progress<'a>
        requires { length segment.now < too_long }
    {
        Progress {
            segment,
            cursor: crn_symbol_codec::start(segment),
            table: Table {
                count: 0,
                lengths: [0; 8192],
            },
        }
    }

    // The place of the next bit.
    fn place(&self) -> usize {
        crn_symbol_codec::place(self.segment, self.cursor)
    }

    // After a refusal nothing has to be known of the case: it has ended.
    fn operate(&mut self, operation: Operation) -> Result<Done, Refused> {
        match operation {
            Operation::Number { bits } => self.number(bits),
            Operation::Table => self.receive(),
            Operation::Draws { count } => self.draw(count),
        }
    }

    // A number of so many bits.
    fn number(&mut self, bits: u32) -> Result<Done, Refused> {
        if 16 < bits {
            return Err(Refused::TooManyBits);
        }
        match crn_symbol_codec::number(self.segment, self.cursor, u64::from(bits)) {
            Ok((value, after)) => {
                self.cursor = after;
                let place = self.place();
                Ok(Done::Number { place, value })
            }
            Err(refusal) => {
                let place = self.place();
                Err(Refused::Number { refusal, place })
            }
        }
    }

    // A code table, whose lengths the next draws go by.
    fn receive(&mut self) -> Result<Done, Refused> {
        let mut lengths = [0u8; 8192];
        let (count, after) = match crn_code_tables::receive(
            self.segment,
            self.cursor,
            &mut lengths,
        ) {
            Ok(received) => received,
            Err(fault) => return Err(Refused::Table(fault)),
        };
        self.cursor = after;
        self.table = Table { count, lengths };
        let place = self.place();
        let hash = hashed(fnv::OFFSET, self.lengths());
        Ok(Done::Table { place, count, hash })
    }

    // The lengths of the last table's symbols.
    fn lengths(&self) -> &[u8]
        ensures { length result.now ≤ max_symbols }
    {
        &self.table.lengths[..self.table.count as usize]
    }

    // So many symbols, drawn by the last table's code; the line hashes two bytes of each.
    fn draw(&mut self, count: u32) -> Result<Done, Refused> {
        let mut lookup = [0; 8224];
        let mut sorted = [0; 8192];
        let decoder = Decoder::new(self.lengths(), &mut lookup, &mut sorted);
        let mut hash = fnv::OFFSET;
        for done in 0..count {
            match decoder.draw(self.segment, self.cursor) {
                Ok((symbol, after)) => {
                    self.cursor = after;
                    hash = hashed(hash, &symbol.to_le_bytes()[..2]);
                }
                Err(refusal) => {
                    let place = self.place();
                    let drawn = Drawn {
                        place,
                        count: done,
                        hash,
                    };
                    return Err(Refused::Draws { refusal, drawn });
                }
            }
        }
        let place = self.place();
        Ok(Done::Draws(Drawn { place, count, hash }))
    }
}

// The decoder tables of a code, by which symbols are drawn.
#[derive(Drop)]
struct Decoder<'a> {
    lookup: &'a [u32; 8224],
    sorted: &'a [u16; 8192],
}

impl<'a> Model for Decoder<'a> {
    ghost Value = { Unit {0} };

    ghost view = { λ _. tt };

    ghost invariant = { λ d. SomeCode d.lookup.now d.sorted.now };
}

impl<'a> Decoder<'a> {
    // Made in these tables, from the code of these lengths, or from no code at all.
    fn new(lengths: &[u8], lookup: &'a mut [u32; 8224], sorted: &'a mut [u16; 8192]) -> Decoder<'a>
        requires { length lengths.now ≤ max_symbols }
    {
        let code = code_or_none(lengths);
        crn_static_huffman_data_model::build(code, 13, lookup, sorted);
        Decoder { lookup, sorted }
    }

    // A symbol, or its refusal.
    fn draw(&self, segment: &[u8], cursor: Cursor) -> Taken
        requires { Holds segment.now cursor }
        ensures { On segment.now result }
    {
        let lookup = self.lookup;
        let sorted = self.sorted;
        crn_symbol_codec::draw(
            crn_symbol_codec::Decoder { lookup, sorted },
            segment,
            cursor,
        )
    }
}

// These lengths where they make a code, or else none.
#[tactic(auto, unfolding(crn_format::specs::Codes::all_fit))]
fn code_or_none(lengths: &[u8]) -> &[u8]
    requires { length lengths.now ≤ max_symbols }
    ensures long { length result.now ≤ max_symbols }
    ensures fits { all_fit result.now (length result.now) ≡ true }
{
    if crn_static_huffman_data_model::is_code(lengths) {
        lengths
    } else {
        &[]
    }
}

// ---- cases

// A case as the input has it: its segment, and its operations, of five bytes each.
#[derive(Clone, Copy)]
struct Case<'a> {
    segment: &'a [u8],
    operations: &'a [u8],
    ghost segment_long: { length segment.now < too_long },
}

// The case that the input begins with, and the input after it.
fn split_case(input: &[u8]) -> Option<(Case<'_>, &[u8])> {
    let (size, rest) = input.split_first_chunk()?;
    let (segment, rest) = rest.split_at_checked(u32::from_le_bytes(*size) as usize)?;
    let (count, rest) = rest.split_first()?;
    let (operations, rest) = rest.split_at_checked(5 * usize::from(*count))?;
    Some((
        Case {
            segment,
            operations,
        },
        rest,
    ))
}

// The operations in turn, until one is refused.
fn run(rt: &impl Print, case: Case) -> io::Result<()> {
    let mut progress = Progress::new(case.segment);
    for bytes in case.operations.chunks_exact(5) {
        match progress.operate(Operation::from(bytes)) {
            Ok(done) => println!(rt; "{done}")?,
            Err(refused) => return println!(rt; "{refused}"),
        }
    }
    Ok(())
}

// The cases in turn. A number of cases that is cut off counts the bytes that it lacks as 0.
fn cases(rt: &impl Print, input: &[u8]) -> io::Result<()> {
    let mut rest = input.get(4..).unwrap_or(&[]);
    for _ in 0..crn_utils::little32(input, 0) {
        let Some((case, after)) = split_case(rest) else {
            return println!(rt; "short input");
        };
        run(rt, case)?;
        rest = after;
    }
    Ok(())
}

// Reads standard input until the buffer is full or the input ends, and answers how many bytes stand at the buffer's start. Each turn reads
// a byte or more, or was interrupted.
fn read_full(rt: &impl Input, buffer: &mut [u8]) -> io::Result<usize>
    ensures { IfOk result (λ n. n ≤ length buffer.new) }
{
    let mut input = rt.reader();
    let mut done = 0;
    'reads: for _ in 0..u64::MAX {
        if buffer.len() <= done {
            break;
        }
        match input.read(&mut buffer[done..]) {
            Ok(0) => break,
            Ok(n) => done += n,
            Err(error) if error.kind() == ErrorKind::Interrupted => {}
            Err(error) => return Err(error),
        }
    }
    Ok(done)
}

fn main(rt: HostRuntime) -> io::Result<()> {
    let mut buffer = [0; MOST];
    let n = read_full(&rt, &mut buffer)?;
    cases(&rt, &buffer[..n])
}
