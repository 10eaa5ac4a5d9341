//! The one call that does everything.
ghost use Rattle.std.specs.Prelude.{◌≡◌, ◌≢◌, ◌⊎◌, ℕ, ◌≤◌, map, string_bytes, IsSome, None, Bool};
ghost use Rattle.bridge_io.specs.Outside.{Rose, RoseBy};
ghost use Rattle.bridge_lang.specs.Words.{asked};
ghost use Rattle.bridge_lang.specs.Job.{Job, IsJob};
ghost use Rattle.bridge_lang.specs.Outcome.{EndsAs, IsCutShort, Writes, Refuses, OutputCut, ReportCut};
ghost use Rattle.bridge_lang.specs.Sinks.{seen};

use crate::job::output_of;
use crate::report::write_line;
use bridge_io::{Files, Sink};
use bridge_lang::Status;
use std::alloc::Global;

/// Does what the words ask for, over files and two sinks.
///
/// Nothing is on `out` before the whole output stands. A refusal writes its one line to `report`, and
/// nothing to `out`.
pub fn bridge<F: Files, O: Sink, E: Sink>(
    alloc: Global,
    words: &[String],
    files: &mut F,
    out: &mut O,
    report: &mut E,
) -> Status
    requires out_takes { (n : ℕ) → O.takes out.old n }
    requires report_takes { (n : ℕ) → E.takes report.old n }

    // What was told of the files stays, and no count falls.
    ensures told { F.told files.new ≡ F.told files.old }
    ensures faults { F.faults files.old ≤ F.faults files.new }
    ensures absences { F.absences files.old ≤ F.absences files.new }
    ensures given { F.given files.old ≤ F.given files.new }

    // The sinks take any number of bytes still, and no count falls.
    ensures out_takes { (n : ℕ) → O.takes out.new n }
    ensures report_takes { (n : ℕ) → E.takes report.new n }
    ensures out_faults { O.faults out.old ≤ O.faults out.new }
    ensures report_faults { E.faults report.old ≤ E.faults report.new }

    // The cause of each end that speaks of the outside.
    ensures read_fault { result ≡ Status.ReadFault → Rose (F.faults files.old) (F.faults files.new) }
    ensures missing { (script : Bool) → result ≡ Status.Missing script → Rose (F.absences files.old) (F.absences files.new) }
    ensures too_large { (script : Bool) → result ≡ Status.TooLarge script → RoseBy 16777217 (F.given files.old) (F.given files.new) }
    ensures write_fault { result ≡ Status.WriteFault
        → Rose (O.faults out.old) (O.faults out.new) ⊎ Rose (E.faults report.old) (E.faults report.new) }

    // Faulty words are told by the words alone, unless a write fails or memory runs out.
    ensures usage { result ≡ Status.Usage → asked (map string_bytes words.now) ≡ None }
    ensures faulty_words { asked (map string_bytes words.now) ≡ None
        → (result ≡ Status.Usage) ⊎ (result ≡ Status.WriteFault) ⊎ (result ≡ Status.Memory) }

    // Where the files are told, the end is the job's, unless a read or a write fails or memory runs out.
    ensures exact { (job : Job) → IsSome (F.told files.old) → IsJob (map string_bytes words.now) (F.told files.old) job
        → EndsAs job result ⊎ IsCutShort result }

    // What each end leaves in the sinks.
    ensures done { result ≡ Status.Done → Writes (map string_bytes words.now) (F.told files.old)
        (seen (O.told out.old) (O.faults out.old)) (seen (O.told out.new) (O.faults out.new))
        (seen (E.told report.old) (E.faults report.old)) (seen (E.told report.new) (E.faults report.new)) }
    ensures refused { result ≢ Status.Done → result ≢ Status.WriteFault
        → Refuses (map string_bytes words.now) (F.told files.old) result
        (seen (O.told out.old) (O.faults out.old)) (seen (O.told out.new) (O.faults out.new))
        (seen (E.told report.old) (E.faults report.old)) (seen (E.told report.new) (E.faults report.new)) }
    ensures cut { result ≡ Status.WriteFault
        → OutputCut (map string_bytes words.now) (F.told files.old)
        (seen (O.told out.old) (O.faults out.old)) (seen (O.told out.new) (O.faults out.new))
        (seen (E.told report.old) (E.faults report.old)) (seen (E.told report.new) (E.faults report.new))
        ⊎ ReportCut (map string_bytes words.now) (F.told files.old)
        (seen (O.told out.old) (O.faults out.old)) (seen (O.told out.new) (O.faults out.new))
        (seen (E.told report.old) (E.faults report.old)) (seen (E.told report.new) (E.faults report.new)) }
{
    match output_of(alloc, words, files) {
        Ok(output) => match output.put(out) {
            Ok(()) => Status::Done,
            Err(_) => Status::WriteFault,
        },
        Err(refusal) => match write_line(report, &refusal) {
            Ok(()) => refusal.status(),
            Err(_) => Status::WriteFault,
        },
    }
}
