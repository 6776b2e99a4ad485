//! Brings both kinds of maker to their limit, 4,294,967,295 bytes taken and as many drawn, and prints what they answer there: each line
//! is the numbers of the refusals of some calls in a row, 0 for an accepted one. With the word `numbers` no bytes are taken and drawn on
//! the way there: makers are made that count as many, which takes no time, and the lines are the same.
#![tactic(auto)]

ghost use Rattle.std.specs.Prelude.{◌<◌, length};

use anyhow::Error;
use digest::maker::{DigestMaker, LIMIT};
use keccak::shake256::Shake256;
use protocol::fault::Fault;
use sha512::stretched::Stretched;
use std::{env, fmt};

/// So many bytes are taken, and drawn, that five more are within the limit and six are not.
const EDGE: u64 = LIMIT - 5;

/// What a call answered: printed as the number of the refusal, and 0 for an accepted call.
#[derive(Clone, Copy)]
struct Answer(Result<(), Fault>);

impl fmt::Display for Answer {
    fn fmt<W: fmt::Write>(&self, f: &mut fmt::Formatter<W>) -> fmt::Result {
        match self.0 {
            Ok(()) => f.write_str("0"),
            Err(fault) => write!(f, "{}", fault.number()),
        }
    }
}

/// Has a maker take, or give, pieces that have as many bytes together as there are up to the edge.
fn to_the_edge<F: FnMut(&mut [u8]) -> Result<(), Fault>>(
    piece: &mut [u8],
    mut step: F,
) -> Result<(), Fault>
    requires some { 0 < length piece.old }
    requires callable { F.IsAlwaysCallable step }
{
    let size = piece.len() as u64;
    for _ in 0..EDGE / size {
        step(piece)?;
    }
    step(&mut piece[..(EDGE % size) as usize])
}

/// Takes of six, five, no and one byte at the edge.
// each of these prints another line, and `show` and `show_numbers` come to them with one maker and with two: no function for both is shorter
fn show_takes<D: DigestMaker>(rt: &HostRuntime, name: &str, maker: &mut D) -> anyhow::Result<()> {
    let past = Answer(maker.take(&[9; 6]));
    let edge = Answer(maker.take(&[9; 5]));
    let none = Answer(maker.take(&[]));
    let one = Answer(maker.take(&[9]));
    println!(rt;
        "{name} take {past} {edge} {none} {one} {}",
        maker.bytes_taken()
    )?;
    Ok(())
}

/// Draws of six, five, no and one byte at the edge, and whether the refused one left its buffer alone.
fn show_draws<D: DigestMaker>(rt: &HostRuntime, name: &str, maker: &mut D) -> anyhow::Result<()> {
    let mut six = [9; 6];
    let past = Answer(maker.draw(&mut six));
    let alone = six == [9; 6];
    let mut five = [9; 5];
    let edge = Answer(maker.draw(&mut five));
    let none = Answer(maker.draw(&mut []));
    let one = Answer(maker.draw(&mut [0]));
    println!(rt;
        "{name} draw {past} {alone} {edge} {none} {one} {}",
        maker.bytes_drawn()
    )?;
    Ok(())
}

/// A take of no bytes after the draws, and a new beginning.
fn show_turn<D: DigestMaker>(rt: &HostRuntime, name: &str, maker: &mut D) -> anyhow::Result<()> {
    let turn = Answer(maker.take(&[]));
    let taken = maker.bytes_taken();
    maker.begin();
    println!(rt;
        "{name} turn {turn} {taken}, begun {} {}",
        maker.bytes_taken(),
        maker.bytes_drawn()
    )?;
    Ok(())
}

fn show<D: DigestMaker>(
    rt: &HostRuntime,
    name: &str,
    maker: &mut D,
    piece: &mut [u8],
) -> anyhow::Result<()>
    requires { 0 < length piece.old }
{
    to_the_edge(piece, |part| maker.take(part)).map_err(Error::msg)?;
    show_takes(rt, name, maker)?;
    to_the_edge(piece, |part| maker.draw(part)).map_err(Error::msg)?;
    show_draws(rt, name, maker)?;
    show_turn(rt, name, maker)
}

/// The same of two makers that stand at the edges already: the first of its bytes taken, the second of its bytes drawn.
fn show_numbers<D: DigestMaker>(
    rt: &HostRuntime,
    name: &str,
    taking: &mut D,
    drawing: &mut D,
) -> anyhow::Result<()> {
    show_takes(rt, name, taking)?;
    show_draws(rt, name, drawing)?;
    show_turn(rt, name, drawing)
}

/// Both kinds of maker, made to count what they would after as many bytes.
fn show_by_numbers(rt: &HostRuntime) -> anyhow::Result<()> {
    let mut taking = Shake256::with_counts(EDGE, 0).unwrap();
    let mut drawing = Shake256::with_counts(LIMIT, EDGE).unwrap();
    show_numbers(rt, "shake256", &mut taking, &mut drawing)?;
    let mut taking = Stretched::with_counts(EDGE, 0).unwrap();
    let mut drawing = Stretched::with_counts(LIMIT, EDGE).unwrap();
    show_numbers(rt, "sha512", &mut taking, &mut drawing)
}

fn main(rt: HostRuntime) -> anyhow::Result<()> {
    if env::args(&rt)?.any(|word| word.as_str() == "numbers") {
        return show_by_numbers(&rt);
    }
    let mut piece = vec![in rt.alloc(); 0u8; 16_777_216]?;
    show(&rt, "shake256", &mut Shake256::new(), piece.as_mut_slice())?;
    show(&rt, "sha512", &mut Stretched::new(), piece.as_mut_slice())
}
