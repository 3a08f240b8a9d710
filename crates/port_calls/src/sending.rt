//! Bytes that go out on a pipe.

ghost use Rattle.port_calls.specs.Exchanging.{HasSent};

use outside::Pipe;
use streams::Failed;

/// Sends all of these bytes.
pub(crate) fn send_all<P: Pipe>(pipe: &mut P, bytes: &[u8]) -> Result<(), Failed>
    ensures sent { HasSent bytes.now (P.state pipe.old) (P.state pipe.new) result }
{
    let mut rest = bytes;
    'pieces: while !rest.is_empty() {
        let count = pipe.send(rest)?;
        let (_, behind) = rest.split_at(count);
        rest = behind;
    }
    Ok(())
}
