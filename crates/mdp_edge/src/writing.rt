ghost use Rattle.std.specs.Prelude.{◌≡◌, ◌≤◌, OnOk, OnErr};
ghost use Rattle.mdp_edge.specs.{Faults.{FaultCounted}, Bytes.{TookAll, TookPrefix}};

use crate::sink::Sink;

/// A sink failed before it had taken and settled all that was to be written.
#[derive(Clone, Copy)]
pub struct WriteFault;

/// Writes all the bytes in order, and flushes the sink. Where the sink fails, it has taken some of them from the front.
pub fn write_all<K: Sink>(sink: &mut K, bytes: &[u8]) -> Result<(), WriteFault>
    ensures all { OnOk result (TookAll (K.taken sink.old) (K.taken sink.new) (K.settled sink.new) bytes.now) }
    ensures prefix { TookPrefix (K.taken sink.old) (K.taken sink.new) bytes.now }

    // After a fault no flush followed.
    ensures unsettled { OnErr result (K.settled sink.new ≡ K.settled sink.old) }
    ensures fault { OnErr result (FaultCounted (K.faults sink.old) (K.faults sink.new)) }
    ensures still { OnOk result (K.faults sink.new ≡ K.faults sink.old) }
    ensures later { K.faults sink.old ≤ K.faults sink.new }
{
    let mut done = 0;
    'writing: while done < bytes.len() {
        let Ok(count) = sink.write(&bytes[done..]) else {
            return Err(WriteFault);
        };
        done += count;
    }
    let Ok(()) = sink.flush() else {
        return Err(WriteFault);
    };
    Ok(())
}
