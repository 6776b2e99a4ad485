//! Short texts, a label and a few short parts, and short bytes drawn.
ghost use Rattle.std.specs.Prelude.{◌≡◌, ◌+◌, ◌≤◌, [], ◌∷◌, ◌++◌, length};
ghost use Rattle.protocol.specs.Streams.{first_bytes};
ghost use Rattle.digest.specs.Making.{Holding, limit};
ghost use Rattle.digest.specs.Short.{short_bytes};

use crate::maker::DigestMaker;
use crate::short::ShortBytes;

/// Begins the maker and has it take a label and three short parts; what a text has less of is an empty part. The label is the number by
/// which the format knows the text.
pub fn take_text<D: DigestMaker>(maker: &mut D, label: u8, a: &[u8], b: &[u8], c: &[u8])
    requires a { length a.now ≤ 64 }
    requires b { length b.now ≤ 64 }
    requires c { length c.now ≤ 64 }
    ensures { Holding D.DigestMaker.function (label ∷ (a.now ++ (b.now ++ c.now))) (D.DigestMaker.means maker.new) }
{
    maker.begin();
    maker.take(&[label]).unwrap();
    maker.take(a).unwrap();
    maker.take(b).unwrap();
    maker.take(c).unwrap();
}

/// The next bytes of a maker's stream.
pub fn draw_short<D: DigestMaker>(maker: &mut D, width: usize) -> ShortBytes
    requires few { width ≤ 64 }
    requires limit { (D.DigestMaker.means maker.old).drawn + width ≤ limit }
    ensures { short_bytes result ≡ first_bytes ((D.DigestMaker.means maker.old).rule []) width }
{
    let mut bytes = [0; 64];
    maker.draw(&mut bytes[0..width]).unwrap();
    ShortBytes { bytes, width }
}
