//! Prints the digests of standard input by both kinds: `shake256 HEX` and `sha512 HEX`.
#![tactic(auto)]

use digest::maker::{DigestMaker, LIMIT};
use hexadecimal::writing::Hex;
use keccak::shake256::Shake256;
use protocol::fault::Fault;
use sha512::stretched::Stretched;
use std::env;
use std::io::Read;

/// How many bytes are read at a time.
const PIECE: usize = 65536;

/// How many bytes of each stream are printed where nothing else is asked, and at most.
const USUAL: usize = 32;

const MOST: usize = 4096;

/// The number of bytes asked for; none where the arguments are no such number.
fn asked(rt: &HostRuntime) -> anyhow::Result<Option<usize>> {
    let mut args = env::args(rt)?;
    let _program = args.next();
    let Some(word) = args.next() else {
        return Ok(Some(USUAL));
    };
    if args.next().is_some() {
        return Ok(None);
    }
    let count = word.as_str().parse::<usize>().ok();
    Ok(count.filter(|count| (1..=MOST).contains(count)))
}

/// The line of one kind: its name, and the front of its stream in hexadecimal.
fn show<D: DigestMaker>(
    rt: &HostRuntime,
    name: &str,
    maker: &mut D,
    count: usize,
) -> anyhow::Result<()> {
    let mut out = vec![in rt.alloc(); 0u8; count]?;
    match maker.draw(out.as_mut_slice()) {
        Ok(()) => println!(rt; "{name} {}", Hex(out.as_slice()))?,
        Err(fault) => println!(rt; "{fault}")?,
    }
    Ok(())
}

/// Has both makers take the bytes.
fn take_both(shake: &mut Shake256, sha: &mut Stretched, bytes: &[u8]) -> Result<(), Fault> {
    shake.take(bytes)?;
    sha.take(bytes)
}

/// Has both makers take standard input: what they answer, beside what reading it answers. A failed read ends the program; a refusal is
/// told to its user.
fn take_input(
    rt: &HostRuntime,
    shake: &mut Shake256,
    sha: &mut Stretched,
) -> anyhow::Result<Result<(), Fault>> {
    let mut piece = vec![in rt.alloc(); 0u8; PIECE]?;
    let mut input = rt.stdin();
    let mut taken = Ok(());
    // input ends when a read gives no bytes; the count is there since each loop is proved to end
    for _ in 0..u64::MAX {
        let n = input.read(piece.as_mut_slice())?;
        taken = take_both(shake, sha, &piece.as_slice()[0..n]);
        if n == 0 || taken.is_err() {
            break;
        }
    }
    Ok(taken)
}

fn main(rt: HostRuntime) -> anyhow::Result<()> {
    let Some(count) = asked(&rt)? else {
        println!(rt;
            "usage: checksum [COUNT] < FILE    (COUNT bytes of each digest, 1 to 4096; 32 if not given)"
        )?;
        return Ok(());
    };
    let mut shake = Shake256::new();
    let mut sha = Stretched::new();
    if take_input(&rt, &mut shake, &mut sha)?.is_err() {
        println!(rt; "too long: a digest takes at most {LIMIT} bytes")?;
        return Ok(());
    }
    show(&rt, "shake256", &mut shake, count)?;
    show(&rt, "sha512", &mut sha, count)
}
