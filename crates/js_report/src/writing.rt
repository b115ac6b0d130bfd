//! Writing a whole report.

ghost use Rattle.std.specs.Prelude.{◌≡◌, OnErr, OnOk, is_some};
ghost use Rattle.std.specs.Io.KnownBytes.{Appends};
ghost use Rattle.js_outside.specs.Counts.{Rose};
ghost use Rattle.js_report.specs.Written.{AppendsPrefix};

use js_outside::{Failed, Sink};

/// Writes the whole report, piece by piece. It takes no memory.
pub fn write_report<K: Sink>(sink: &mut K, report: &[u8]) -> Result<(), Failed>
    ensures told { is_some (K.written sink.new) ≡ is_some (K.written sink.old) }
    ensures whole { OnOk result (Appends (K.written sink.old) (K.written sink.new) report.now) }
    ensures counted { OnOk result (K.faults sink.new ≡ K.faults sink.old) }
    ensures prefix { OnErr result (AppendsPrefix (K.written sink.old) (K.written sink.new) report.now) }
    ensures failed { OnErr result (Rose (K.faults sink.old) (K.faults sink.new)) }
{
    let mut done = 0;
    'pieces: while done < report.len() {
        let count = sink.write(&report[done..])?;
        if count == 0 {
            return Err(Failed);
        }
        done += count;
    }
    Ok(())
}
