//! Values and shares, drawn from a maker as numbers of two bytes each.
ghost use Rattle.std.specs.Prelude.{◌≡◌, ◌+◌, ◌*◌, ◌≤◌, [], map, length};
ghost use Rattle.std.specs.List.{range_with_len};
ghost use Rattle.protocol.specs.Of.{parameters};
ghost use Rattle.protocol.specs.Streams.{stream_word};
ghost use Rattle.digest.specs.Making.{limit};
ghost use Rattle.digest.specs.Short.{short_bytes};
ghost use Rattle.shares.specs.Drawing.{Advanced, value_residues, share};

use digest::maker::DigestMaker;
use digest::short::ShortBytes;
use digest::text::take_text;
use lattice::values::{read_words, reduce_all, sample_all};
use protocol::header::Header;
use protocol::set::Set;
use seedtree::repetition::Repetition;

/// Draws by way of bytes.
fn draw_by<D: DigestMaker>(maker: &mut D, bytes: &mut [u8], words: &mut [u16])
    requires pairs { length bytes.old ≡ 2 * length words.old }
    requires limit { (D.DigestMaker.means maker.old).drawn + length bytes.old ≤ limit }
    ensures words { words.new ≡ map (stream_word ((D.DigestMaker.means maker.old).rule [])) (range_with_len 0 (length words.old)) }
    ensures maker { Advanced (2 * length words.old) (D.DigestMaker.means maker.old) (D.DigestMaker.means maker.new) }
{
    maker.draw(bytes).unwrap();
    read_words(bytes, words);
}

/// Fills words with the next numbers of a maker's stream.
pub fn draw_words<D: DigestMaker>(maker: &mut D, words: &mut [u16])
    requires { (D.DigestMaker.means maker.old).drawn + 2 * length words.old ≤ limit }
    ensures { words.new ≡ map (stream_word ((D.DigestMaker.means maker.old).rule [])) (range_with_len 0 (length words.old)) }
{
    // by places: of a slice cut by chunks_mut no clause says what it ends as
    let end = words.len();
    for from in (0..end).step_by(64) {
        let n = (end - from).min(64);
        let mut bytes = [0; 128];
        draw_by(maker, &mut bytes[0..2 * n], &mut words[from..from + n]);
    }
}

/// The values of salt and master, modulo q.
pub fn draw_values<D: DigestMaker>(
    maker: &mut D,
    header: Header,
    salt: &ShortBytes,
    master: &[u8; 32],
    values: &mut [u16],
)
    requires { length values.old ≡ (parameters header).m }
    ensures { values.new ≡ value_residues D.DigestMaker.function (parameters header) (short_bytes salt.now) master.now }
{
    take_text(maker, 1, salt.as_slice(), master, &[]);
    draw_words(maker, values);
    sample_all(header.set, values);
}

/// A party's shares, modulo q.
pub fn draw_shares<D: DigestMaker>(
    maker: &mut D,
    repetition: Repetition<'_>,
    party: u8,
    seed: &[u8; 32],
    shares: &mut [u16],
)
    requires { length shares.old ≤ 32768 }
    ensures { let r = repetition.entry in shares.new ≡ map (share D.DigestMaker.function (parameters r.header) (short_bytes r.salt.now) r.number party seed.now) (range_with_len 0 (length shares.old)) }
{
    let Repetition {
        header,
        salt,
        number,
    } = repetition;
    take_text(maker, 5, salt.as_slice(), &[number, party], seed);
    draw_words(maker, shares);
    reduce_all(header.set, shares);
}
