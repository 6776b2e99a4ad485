//! Digests of known texts by both kinds of maker, to be held to the values of other tools: texts of 0 to 300 bytes, texts that are
//! taken and streams that are drawn in uneven pieces, long streams; and SHAKE128 of texts of 0 to 400 bytes.
#![tactic(auto)]

use anyhow::Error;
use digest::maker::DigestMaker;
use hexadecimal::writing::Hex;
use keccak::shake128::shake128;
use keccak::shake256::Shake256;
use sha512::stretched::Stretched;
use std::alloc::{AllocError, Global};
use std::{iter, mem};

/// A text of so many bytes: byte i is 7·i + 3 mod 256.
fn text(heap: Global, n: usize) -> Result<Vec<u8>, AllocError> {
    iter::successors(Some(3u8), |b| Some(b.wrapping_add(7)))
        .take(n)
        .collect(heap)
}

/// The first bytes of the stream of a text.
fn digest<D: DigestMaker>(
    heap: Global,
    maker: &mut D,
    bytes: &[u8],
    n: usize,
) -> anyhow::Result<Vec<u8>> {
    let mut out = vec![in heap; 0u8; n]?;
    maker.begin();
    maker.take(bytes).map_err(Error::msg)?;
    maker.draw(out.as_mut_slice()).map_err(Error::msg)?;
    Ok(out)
}

/// The same with the text taken in pieces of 0, 1, 2, .. bytes and the stream drawn in pieces of 0, 1, 2, .. bytes.
fn digest_uneven<D: DigestMaker>(
    heap: Global,
    maker: &mut D,
    bytes: &[u8],
    n: usize,
) -> anyhow::Result<Vec<u8>> {
    let mut out = vec![in heap; 0u8; n]?;
    maker.begin();
    let mut rest = bytes;
    for size in 0..64usize {
        let (piece, more) = rest.split_at(size.min(rest.len()));
        maker.take(piece).map_err(Error::msg)?;
        rest = more;
    }
    let mut rest = out.as_mut_slice();
    for size in 0..64usize {
        let k = size.min(rest.len());
        let (piece, more) = mem::take(&mut rest).split_at_mut(k);
        maker.draw(piece).map_err(Error::msg)?;
        rest = more;
    }
    Ok(out)
}

fn lines<D: DigestMaker>(rt: &HostRuntime, name: &str, maker: &mut D) -> anyhow::Result<()> {
    let heap = rt.alloc();
    let out = digest(heap, maker, b"abc", 64)?;
    println!(rt; "{name} abc {}", Hex(out.as_slice()))?;
    let many = vec![in heap; 0xa3u8; 200]?;
    let out = digest(heap, maker, many.as_slice(), 64)?;
    println!(rt; "{name} a3 {}", Hex(out.as_slice()))?;
    for n in 0..301usize {
        let bytes = text(heap, n)?;
        let out = digest(heap, maker, bytes.as_slice(), 16)?;
        println!(rt; "{name} {n} {}", Hex(out.as_slice()))?;
    }
    let bytes = text(heap, 1000)?;
    let out = digest_uneven(heap, maker, bytes.as_slice(), 700)?;
    println!(rt; "{name} uneven {}", Hex(out.as_slice()))?;
    let out = digest(heap, maker, bytes.as_slice(), 3000)?;
    println!(rt; "{name} long {}", Hex(out.as_slice()))?;
    Ok(())
}

/// The first bytes of SHAKE128 of a text.
fn digest128(heap: Global, bytes: &[u8], n: usize) -> Result<Vec<u8>, AllocError> {
    let mut out = vec![in heap; 0u8; n]?;
    shake128(bytes, out.as_mut_slice());
    Ok(out)
}

fn lines128(rt: &HostRuntime) -> anyhow::Result<()> {
    let heap = rt.alloc();
    for n in 0..401usize {
        let bytes = text(heap, n)?;
        let out = digest128(heap, bytes.as_slice(), 16)?;
        println!(rt; "shake128 {n} {}", Hex(out.as_slice()))?;
    }
    let bytes = text(heap, 18)?;
    let out = digest128(heap, bytes.as_slice(), 2688)?;
    println!(rt; "shake128 long {}", Hex(out.as_slice()))?;
    Ok(())
}

fn main(rt: HostRuntime) -> anyhow::Result<()> {
    let mut shake = Shake256::new();
    lines(&rt, "shake256", &mut shake)?;
    let mut sha = Stretched::new();
    lines(&rt, "sha512", &mut sha)?;
    lines128(&rt)
}
