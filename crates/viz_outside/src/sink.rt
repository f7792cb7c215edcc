ghost use Rattle.std.specs.Prelude.{◌≡◌, ◌≤◌, ◌<◌, ℕ, List, Option, [], IfOk, IsErr, IsOk, OnErr, OnOk, Ok, length, take};
ghost use Rattle.viz_base.specs.Numbers.{Rose};
ghost use Rattle.viz_outside.specs.Sink.{grown, GrewByPart};

use thiserror::Error;

/// A sink took nothing, and has counted it.
#[derive(Clone, Copy, Debug, Error)]
#[error("the output can't be written")]
pub struct SinkFailed;

/// Takes bytes, piece by piece.
pub trait Sink {
    /// The bytes taken so far, where the sink tells them.
    ghost written: { Self → Option (List ℕ) };

    /// How often it has failed. A count that is kept in 64 bits stops at their end.
    ghost faults: { Self → ℕ };

    /// Takes a prefix of the piece and says how long it is. It takes no memory.
    fn write(&mut self, bytes: &[u8]) -> Result<usize, SinkFailed>
        ensures within { IfOk result (λ taken. taken ≤ length bytes.now) }
        ensures grows { IfOk result (λ taken. written self.new
            ≡ grown (written self.old) (take taken bytes.now)) }
        ensures kept { OnErr result (written self.new ≡ written self.old) }
        ensures counts { faults self.old ≤ faults self.new }
        ensures failed { OnErr result (Rose (faults self.old) (faults self.new)) }
        ensures stuck { result ≡ Ok 0 → 0 < length bytes.now
            → Rose (faults self.old) (faults self.new) };
}

/// Writes all the bytes, in as many calls as the sink wants, and none where there are none.
/// Fails only where the sink failed in this call, with a prefix written.
pub fn write_all<K: Sink>(sink: &mut K, bytes: &[u8]) -> Result<(), SinkFailed>
    ensures whole { OnOk result (K.written sink.new ≡ grown (K.written sink.old) bytes.now) }
    ensures part { OnErr result (GrewByPart (K.written sink.old) (K.written sink.new) bytes.now) }
    ensures counts { K.faults sink.old ≤ K.faults sink.new }
    ensures failed { OnErr result (Rose (K.faults sink.old) (K.faults sink.new)) }
    ensures empty { bytes.now ≡ [] → IsOk result }
    ensures uncalled { bytes.now ≡ [] → sink.new ≡ sink.old }
{
    let mut done = 0;
    while done < bytes.len() {
        let taken = sink.write(&bytes[done..])?;
        if taken == 0 {
            return Err(SinkFailed);
        }
        done += taken;
    }
    Ok(())
}
