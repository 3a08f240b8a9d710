//! Listening at a port, and the line that tells so.

ghost use Rattle.std.specs.Prelude.{◌≡◌, ◌≢◌, ◌≤◌, false, Err, MatchResult};
ghost use Rattle.streams.specs.Cause.{Rose};
ghost use Rattle.port_serving.specs.Answered.{went_on};
ghost use Rattle.port_serving.specs.Steps.{StartsListening, EndsListening};

use crate::fault::PortFault;
use outside::Binder;
use run_report::write_listening;
use std::alloc::Global;
use streams::Sink;

/// Links that listen at this port and accept so many connections, once the line that tells so is written. Where it isn't, they are handed back.
pub(crate) fn listen<K: Sink, B: Binder>(
    alloc: Global,
    output: &mut K,
    binder: &mut B,
    port: u16,
    accept: u32,
) -> Result<B::L, PortFault>
    ensures listening { MatchResult result
        (λ links. StartsListening
        (record { past = B.past binder.old; handed = B.handed binder.old; taken = K.taken output.old })
        (record { past = B.past binder.new; handed = B.handed binder.new; taken = K.taken output.new })
        (record { port = port; accept = accept }) (B.L.state links))
        (λ fault. EndsListening fault
        (record { past = B.past binder.old; handed = B.handed binder.old; taken = K.taken output.old })
        (record { past = B.past binder.new; handed = B.handed binder.new; taken = K.taken output.new })
        (record { port = port; accept = accept })) }
    ensures called { B.called binder.new ≡ B.called binder.old }
    ensures binder_later { B.faults binder.old ≤ B.faults binder.new }
    ensures output_later { K.faults output.old ≤ K.faults output.new }
    ensures net_fault { result ≡ Err PortFault.NetFault → Rose (B.faults binder.old) (B.faults binder.new) }
    ensures write_fault { result ≡ Err PortFault.WriteFault → Rose (K.faults output.old) (K.faults output.new) }
    ensures binder_kept { went_on result ≡ false → B.faults binder.new ≡ B.faults binder.old }
    ensures output_kept { went_on result ≡ false → result ≢ Err PortFault.WriteFault → K.faults output.new ≡ K.faults output.old }
    ensures no_file_fault { result ≢ Err PortFault.FileFault }
    ensures no_journal_fault { result ≢ Err PortFault.JournalFault }
{
    let links = binder.listen(alloc, port, accept)?;
    match write_listening(alloc, output, port) {
        Ok(()) => Ok(links),
        Err(fault) => {
            binder.take_back(links);
            Err(PortFault::from(fault))
        }
    }
}
