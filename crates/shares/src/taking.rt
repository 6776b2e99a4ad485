//! Rows of numbers, taken into a text.
ghost use Rattle.std.specs.Prelude.{◌≡◌, ◌*◌, cond, [], length, ◌==◌};
ghost use Rattle.std.specs.List.{flat_map};
ghost use Rattle.protocol.specs.Bytes.{le16};
ghost use Rattle.protocol.specs.Scheme.{words};
ghost use Rattle.protocol.specs.Sharing.{parts};
ghost use Rattle.digest.specs.Feeding.{Ready};
ghost use Rattle.digest.specs.Making.{Took};
ghost use Rattle.lattice.specs.Lines.{at};
ghost use Rattle.shares.specs.Shown.{audited_share};

use digest::maker::DigestMaker;

/// Takes all of a row, two bytes each.
pub fn take_words<D: DigestMaker>(maker: &mut D, words: &[u16])
    requires { Ready (2 * length words.now) (D.DigestMaker.means maker.old) }
    ensures { Took (flat_map le16 words.now) (D.DigestMaker.means maker.old) (D.DigestMaker.means maker.new) }
{
    for word in words {
        maker.take(&word.to_le_bytes()).unwrap();
    }
}

/// Takes a row that stands as bytes, two for each number.
pub fn take_coded<D: DigestMaker>(maker: &mut D, count: usize, bytes: &[u8])
    requires pairs { length bytes.now ≡ 2 * count }
    requires ready { Ready (2 * count) (D.DigestMaker.means maker.old) }
    ensures { Took (flat_map le16 (words bytes.now count)) (D.DigestMaker.means maker.old) (D.DigestMaker.means maker.new) }
{
    maker.take(bytes).unwrap();
}

/// Takes a share, unless its value is kept.
fn take_unless_kept<D: DigestMaker>(maker: &mut D, flag: u16, share: u16)
    requires { Ready 2 (D.DigestMaker.means maker.old) }
    ensures { Took (cond (flag == 1) [] (le16 share)) (D.DigestMaker.means maker.old) (D.DigestMaker.means maker.new) }
{
    if flag != 1 {
        maker.take(&share.to_le_bytes()).unwrap();
    }
}

/// Takes the audited ones of a row, in index order.
pub fn take_audited<D: DigestMaker>(maker: &mut D, flags: &[u16], shares: &[u16])
    requires flags { length flags.now ≡ length shares.now }
    requires ready { Ready (2 * length shares.now) (D.DigestMaker.means maker.old) }
    ensures { Took (parts (length shares.now) (audited_share flags.now (at shares.now))) (D.DigestMaker.means maker.old) (D.DigestMaker.means maker.new) }
{
    for (flag, share) in flags.iter().zip(shares) {
        take_unless_kept(maker, *flag, *share);
    }
}
