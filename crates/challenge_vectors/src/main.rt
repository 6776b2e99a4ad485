//! What both challengers choose for known records. Each line of standard input is `KIND CHALLENGER ONE TWO HEADER SALT D1 D2` in
//! hexadecimal, with `-` for the station values of a derived challenger; each line of output is the hidden parties, the flag bytes and
//! the count of kept values.
#![tactic(auto)]

ghost use Rattle.std.specs.Prelude.{◌<◌, ◌≤◌, length};

use anyhow::{Context, anyhow};
use challenge::by_maker::{Derived, Drawn};
use challenge::challenger::Challenger;
use challenge::flags::{count_kept, pack};
use challenge::selection::{choose_hidden, select_kept};
use digest::maker::DigestMaker;
use digest::short::ShortBytes;
use hexadecimal::writing::Hex;
use keccak::shake256::Shake256;
use protocol::fault::Fault;
use protocol::header::Header;
use record::header::read_header;
use sha512::stretched::Stretched;
use std::alloc::{AllocError, Global};

/// The value of a lower-case digit, and 0 for any other byte.
fn digit(b: u8) -> u8
    ensures { result < 16 }
{
    match b {
        b'0'..=b'9' => b - b'0',
        b'a'..=b'f' => b - b'a' + 10,
        _ => 0,
    }
}

/// The bytes that a text of lower-case digits writes. A character that is no such digit counts as 0, and an odd one at the end as none.
// no `decode` of the crate hexadecimal, which refuses such a text and reads capitals
fn unhex(heap: Global, text: &str) -> Result<Vec<u8>, AllocError> {
    let (pairs, _) = text.as_bytes().as_chunks::<2>();
    pairs
        .iter()
        .map(|&[high, low]| 16 * digit(high) + digit(low))
        .collect(heap)
}

/// The salt and both digests of a record.
#[derive(Clone, Copy)]
struct Asked {
    salt: ShortBytes,
    d1: ShortBytes,
    d2: ShortBytes,
}

/// What a challenger chooses, into buffers of the sizes that the header calls for, and how many values it keeps.
fn choose<C: Challenger>(
    challenger: &mut C,
    header: Header,
    asked: &Asked,
    flags: &mut [u16],
    bits: &mut [u8],
    hidden: &mut [u8],
) -> Result<u32, Fault>
    requires { length bits.old ≤ 4096 }
{
    select_kept(challenger, &asked.salt, &asked.d1, header, flags)?;
    pack(flags, bits);
    choose_hidden(
        challenger,
        &asked.salt,
        &asked.d1,
        &asked.d2,
        header,
        hidden,
    )?;
    count_kept(header, bits)
}

/// Prints what a challenger chooses.
fn show<C: Challenger>(
    rt: &HostRuntime,
    challenger: &mut C,
    header: Header,
    asked: &Asked,
) -> anyhow::Result<()> {
    let heap = rt.alloc();
    let mut flags = vec![in heap; 0u16; header.m as usize]?;
    let mut hidden = vec![in heap; 0u8; header.tau as usize]?;
    let mut bits = vec![in heap; 0u8; header.flag_length()]?;
    let count = choose(
        challenger,
        header,
        asked,
        flags.as_mut_slice(),
        bits.as_mut_slice(),
        hidden.as_mut_slice(),
    )
    .map_err(|_| anyhow!("another size"))?;
    println!(rt;
        "{} {} {count}",
        Hex(hidden.as_slice()),
        Hex(bits.as_slice())
    )?;
    Ok(())
}

/// A salt or a digest, from hexadecimal text.
fn short(heap: Global, text: &str) -> anyhow::Result<ShortBytes> {
    ShortBytes::new(unhex(heap, text)?.as_slice()).context("too long")
}

/// A station value, from hexadecimal text; zeros where that writes another number of bytes than 32.
fn station(heap: Global, text: &str) -> Result<[u8; 32], AllocError> {
    Ok(<[u8; 32]>::try_from(unhex(heap, text)?.as_slice()).unwrap_or([0; 32]))
}

/// One line, by makers of one kind.
fn answer<D: DigestMaker + Drop>(rt: &HostRuntime, fields: &[&str]) -> anyhow::Result<()> {
    let [_, challenger, one, two, header, salt, d1, d2] = fields else {
        return Err(anyhow!("eight words a line"));
    };
    let heap = rt.alloc();
    let asked = Asked {
        salt: short(heap, salt)?,
        d1: short(heap, d1)?,
        d2: short(heap, d2)?,
    };
    let header = read_header(unhex(heap, header)?.as_slice()).map_err(|_| anyhow!("no header"))?;
    if *challenger == "derived" {
        let mut derived: Derived<D> = Derived::new();
        return show(rt, &mut derived, header, &asked);
    }
    let mut drawn: Drawn<D> = Drawn::new(station(heap, one)?, station(heap, two)?);
    show(rt, &mut drawn, header, &asked)
}

fn main(rt: HostRuntime) -> anyhow::Result<()> {
    for line in rt.lines(rt.alloc()) {
        let line = line?;
        let fields: Vec<&str> = line.as_str().split(' ').collect(rt.alloc())?;
        if line.as_str().starts_with("shake256") {
            answer::<Shake256>(&rt, fields.as_slice())?;
        } else {
            answer::<Stretched>(&rt, fields.as_slice())?;
        }
    }
    Ok(())
}
