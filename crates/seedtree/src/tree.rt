//! The tree, node m as seed m of the words: its root is node 1, and the children of node p are 2·p and 2·p + 1.
ghost use Rattle.std.specs.Prelude.{◌≡◌, ◌+◌, ◌*◌, ◌<◌, ◌≤◌, length};
ghost use Rattle.std.specs.List.{flat_map};
ghost use Rattle.protocol.specs.Ceremony.{root as root_of};
ghost use Rattle.protocol.specs.Of.{parameters};
ghost use Rattle.protocol.specs.Parameters.{parties};
ghost use Rattle.protocol.specs.Streams.{drawn};
ghost use Rattle.protocol.specs.Texts.{text3};
ghost use Rattle.protocol.specs.Tree.{beside, sibling_nodes};
ghost use Rattle.digest.specs.Short.{short_bytes};
ghost use Rattle.seedtree.specs.Words.{seed_in};
ghost use Rattle.seedtree.specs.Grown.{Split, Leveled, Grown, Regrown};

use crate::repetition::Repetition;
use crate::words::{load, store};
use digest::maker::DigestMaker;
use digest::text::take_text;
use protocol::header::Header;

/// The seeds of a node's left and right child, drawn on its own seed.
fn draw_children<D: DigestMaker>(
    maker: &mut D,
    repetition: Repetition<'_>,
    node: u16,
    seed: &[u8; 32],
) -> [u8; 64]
    ensures { let r = repetition.entry in result ≡ drawn D.DigestMaker.function (text3 (short_bytes r.salt.now) r.number node seed.now) 64 }
{
    let Repetition { salt, number, .. } = repetition;
    let [low, high] = node.to_le_bytes();
    take_text(maker, 3, salt.as_slice(), &[number, low, high], seed);
    let mut both = [0; 64];
    maker.draw(&mut both).unwrap();
    both
}

/// Writes the seeds of a node's children.
fn split<D: DigestMaker>(maker: &mut D, repetition: Repetition<'_>, node: usize, nodes: &mut [u16])
    requires room { 32 * node + 32 ≤ length nodes.old }
    requires few { node < 65536 }
    ensures { let r = repetition.entry in Split D.DigestMaker.function (short_bytes r.salt.now) r.number node nodes.old nodes.new }
{
    let seed = load(nodes, node);
    let both = draw_children(maker, repetition, node as u16, &seed);
    store(nodes, 2 * node, &both[0..32]);
    store(nodes, 2 * node + 1, &both[32..64]);
}

/// The seed of a repetition's root, drawn on the master.
fn draw_root<D: DigestMaker>(
    maker: &mut D,
    repetition: Repetition<'_>,
    master: &[u8; 32],
) -> [u8; 32]
    ensures { let r = repetition.entry in result ≡ root_of D.DigestMaker.function (short_bytes r.salt.now) master.now r.number }
{
    let Repetition { salt, number, .. } = repetition;
    take_text(maker, 2, salt.as_slice(), &[number], master);
    let mut root = [0; 32];
    maker.draw(&mut root).unwrap();
    root
}

/// The whole tree of a repetition: nodes 1 to 2·N - 1, the leaves last.
pub fn grow<D: DigestMaker>(
    maker: &mut D,
    repetition: Repetition<'_>,
    master: &[u8; 32],
    nodes: &mut [u16],
)
    requires { 32 * parties (parameters repetition.header) ≤ length nodes.old }
    ensures { let r = repetition.entry in Grown D.DigestMaker.function (short_bytes r.salt.now) r.number (root_of D.DigestMaker.function (short_bytes r.salt.now) master.now r.number) (parameters r.header).h nodes.new }
{
    let root = draw_root(maker, repetition, master);
    store(nodes, 1, &root);
    for node in 1..repetition.header.parties() {
        split(maker, repetition, node, nodes);
    }
}

/// Writes the children of all nodes of a level but one; the nodes of a level of `width` are width to 2·width - 1.
fn split_level<D: DigestMaker>(
    maker: &mut D,
    repetition: Repetition<'_>,
    width: usize,
    path: usize,
    nodes: &mut [u16],
)
    requires few { width ≤ 256 }
    requires room { 64 * width ≤ length nodes.old }
    ensures { let r = repetition.entry in Leveled D.DigestMaker.function (short_bytes r.salt.now) r.number width path nodes.old nodes.new }
{
    for node in width..2 * width {
        if node != path {
            split(maker, repetition, node, nodes);
        }
    }
}

/// The other child of the same node, by its place in the level.
fn other(i: usize) -> usize
    requires { i < 65536 }
    ensures { result ≡ beside i }
{
    if i % 2 == 0 { i + 1 } else { i - 1 }
}

/// Every leaf of a repetition but the hidden one, from the seeds beside its path, which come from the top down.
pub fn regrow<D: DigestMaker>(
    maker: &mut D,
    repetition: Repetition<'_>,
    hidden: usize,
    siblings: &[u8],
    nodes: &mut [u16],
)
    requires hidden { hidden < parties (parameters repetition.header) }
    requires siblings { length siblings.now ≡ 32 * (parameters repetition.header).h }
    requires room { 32 * parties (parameters repetition.header) ≤ length nodes.old }
    ensures { let r = repetition.entry in Regrown D.DigestMaker.function (short_bytes r.salt.now) r.number (parameters r.header).h hidden siblings.now nodes.new }
{
    let depth = repetition.header.h as usize;
    let (seeds, _) = siblings.as_chunks::<32>();
    for (t, seed) in seeds.iter().enumerate() {
        let width = 1 << t;
        let path = hidden >> (depth - t);
        split_level(maker, repetition, width, width + path, nodes);
        let beside = other(hidden >> (depth - (t + 1)));
        store(nodes, 2 * width + beside, seed);
    }
}

/// The seeds beside the path to the hidden leaf, from the top down, out of a tree.
pub fn write_siblings(header: Header, hidden: usize, nodes: &[u16], out: &mut [u8])
    requires hidden { hidden < parties (parameters header) }
    requires room { 32 * parties (parameters header) ≤ length nodes.now }
    requires output { length out.old ≡ 32 * (parameters header).h }
    ensures { out.new ≡ flat_map (seed_in nodes.now) (sibling_nodes (parameters header).h hidden) }
{
    let depth = header.h as usize;
    for t in 0..depth {
        let width = 1 << t;
        let beside = other(hidden >> (depth - (t + 1)));
        let seed = load(nodes, 2 * width + beside);
        // by places: what an output ends as that was cut into chunks, no clause of the library says
        out[32 * t..32 * t + 32].copy_from_slice(&seed);
    }
}
