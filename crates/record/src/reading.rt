//! A whole record, read from its bytes.
ghost use Rattle.std.specs.Prelude.{◌≡◌, Ok, Err, MatchResult};
ghost use Rattle.protocol.specs.Header.{reads_record};
ghost use Rattle.protocol.specs.Of.{parameters};

use crate::header::read_record;
use crate::view::Record;
use crate::whole::Whole;
use protocol::fault::Fault;

/// The record that these bytes are: fewer than fifteen bytes, mark, version, limits, and then the record's length.
pub fn read_whole(bytes: &[u8]) -> Result<Whole<'_>, Fault>
    ensures { MatchResult result (λ w. (reads_record bytes.now ≡ Ok (parameters w.view.header)) × (w.view.bytes.now ≡ bytes.now)) (λ f. reads_record bytes.now ≡ Err f) }
{
    let header = read_record(bytes)?;
    Ok(Whole {
        view: Record::over(bytes, header),
    })
}
