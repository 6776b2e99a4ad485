//! SHAKE128 of a text.
ghost use Rattle.std.specs.Prelude.{◌≡◌, length};
ghost use Rattle.protocol.specs.Streams.{first_bytes};
ghost use Rattle.keccak.specs.Sponge.{shake128};

use crate::state::Sponge;

/// Fills the buffer with the first bytes of SHAKE128's stream of the text.
pub fn shake128(text: &[u8], out: &mut [u8])
    ensures { out.new ≡ first_bytes (shake128 text.now) (length out.old) }
{
    let mut sponge = Sponge {
        lanes: [0; 25],
        block: [0; 168],
        filled: 0,
        used: 0,
    };
    sponge.take_in(text);
    sponge.close();
    sponge.squeeze(out);
}
